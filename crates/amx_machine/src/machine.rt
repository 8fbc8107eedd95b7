ghost use Rattle.std.specs.Prelude.{◌≡◌, IfOk};
ghost use Rattle.amx_ops.specs.State.{swept};
ghost use Rattle.amx_machine.specs.Machine.{IsClean, IsIdle, IsSteady, first};
ghost use Rattle.amx_machine.specs.Runs.{Follows, behind, core_of, event_of};
ghost use Rattle.amx_machine.specs.Runs.{last_event, mode_behind, ran};
ghost use Rattle.amx_machine.specs.Starts.{StartsSo, address_by};
ghost use Rattle.amx_machine.specs.declared.event.Event.TheVariants as event;
ghost use Rattle.amx_machine.specs.declared.mode.Mode.TheVariants as mode;

use super::event::Event;
use super::mode::Mode;
use super::start::StartFault;
use amx_ops::Amx;
use amx_step::{Core, Turn};
use amx_verify::Verified;
use pawn_base::Memory;
use std::alloc::Global;
use std::marker::Model;

/// The abstract machine of a file (Implementer's Guide, "The abstract machine"), as a host runs it.
/// Contracts see the file, the state, and the mode: loaded; running; at a sleep, which is behind
/// HALT 12 or as [`Machine::set_asleep`] leaves it; waiting for a native; or ended by a halt or an
/// error. It is started in each mode but the first, and idle where it was loaded or ended by
/// HALT 0. Addresses are in bytes from the data's first cell. Only loading takes memory.
#[derive(Drop)]
pub struct Machine {
    pub(crate) core: Core,
    pub(crate) mode: Mode,
}

impl Model for Machine {
    ghost use Rattle.amx_machine.specs.Machine.{Machine, in_mode};

    ghost Value = { Machine };

    ghost view = { λ m. in_mode m.mode m.core };
}

impl Machine {
    /// A file's machine in its first state: the data and then zeros, HEA at the data's end, STK at
    /// the top, and all other registers 0.
    pub fn load(alloc: Global, verified: Verified) -> Result<Machine, Memory>
        ensures { IfOk result (λ machine. machine ≡ first verified) }
    {
        let core = Core::load(alloc, verified)?;
        Ok(Machine {
            core,
            mode: Mode::Loaded,
        })
    }

    /// The file.
    pub fn verified(&self) -> &Verified
        ensures { result.now ≡ self.now.amx }
    {
        self.core.verified()
    }

    /// The mode, which says which calls may come next.
    pub fn mode(&self) -> Mode
        ensures { result ≡ self.now.mode }
    {
        self.mode
    }

    /// Starts an idle machine at main, as -1, or at a public by its number: HEA and STK are as at
    /// first, PRI, ALT and FRM are 0, and all cells are kept. The arguments are pushed from the
    /// last to the first, then the count of their bytes and the return address 0.
    pub fn start(&mut self, entry: i32, arguments: &[i32]) -> Result<(), StartFault>
        requires { IsIdle self.old.mode }
        ensures { StartsSo self.old entry arguments.now result self.new }
    {
        let Some(address) = entry_of(self.core.amx(), entry) else {
            return Err(StartFault::Index);
        };
        if !self.core.start_at(address, arguments) {
            return Err(StartFault::Stack);
        }
        self.mode = Mode::Running;
        Ok(())
    }

    /// Does the instruction at CIP (Implementer's Guide, "Instruction reference"). A machine that
    /// ended answers its last event again.
    pub fn step(&mut self) -> Event
        requires { IsSteady self.old.mode }
        ensures event { result ≡ (ran 1 self.old).event }
        ensures machine { self.new ≡ (ran 1 self.old).machine }
        ensures mode { Follows result self.new.mode }
    {
        self.run(1).1
    }

    /// Does so many instructions, up to the first event other than Going, and tells how many were
    /// done. A machine that ended answers its last event again, with none done.
    pub fn run(&mut self, count: u64) -> (u64, Event)
        requires { IsSteady self.old.mode }
        ensures ran { record { steps = result.0; event = result.1; machine = self.new }
            ≡ ran count self.old }
        ensures mode { Follows result.1 self.new.mode }
    {
        if let Some(event) = self.last_event() {
            return (0, event);
        }
        if count == 0 {
            return (0, Event::Going);
        }
        self.wake();
        let (steps, turn) = amx_step::run(&mut self.core, count);
        // For the prover alone: by its clauses what is dead is 0 at a sleep.
        let _registers = self.core.registers();
        (steps, self.settle(turn))
    }

    /// A native's answer, in PRI.
    pub fn answer(&mut self, value: i32)
        requires { self.old.mode ≡ mode.Waiting }
        ensures { self.new ≡ record self.old {
          state = record self.old.state { pri = value };
          mode = mode.Running;
        } }
    {
        self.core.answer(value);
        self.mode = Mode::Running;
    }

    /// A native's answer, in PRI, and a sleep there: the next run goes on behind the native. What is
    /// dead is 0, as at each sleep.
    pub fn park(&mut self, value: i32)
        requires { self.old.mode ≡ mode.Waiting }
        ensures { self.new ≡ record self.old {
          state = swept (record self.old.state { pri = value });
          mode = mode.Asleep;
        } }
    {
        self.core.answer(value);
        self.mode = Mode::Asleep;
    }

    /// A native's error, which ends the machine.
    pub fn fail(&mut self, code: i32)
        requires { self.old.mode ≡ mode.Waiting }
        ensures { self.new ≡ record self.old { mode = mode.Failed code } }
    {
        self.mode = Mode::Failed(code);
    }

    /// The last event of a machine that ended.
    fn last_event(&self) -> Option<Event>
        ensures { result ≡ last_event self.now }
    {
        match self.mode {
            Mode::Halted(code) => Some(self.halt(code)),
            Mode::Failed(code) => Some(Event::Error(code)),
            Mode::Loaded | Mode::Running | Mode::Asleep | Mode::Waiting => None,
        }
    }

    /// Takes the mode that a step leads to, and tells its event.
    fn settle(&mut self, turn: Turn) -> Event
        requires running { self.old.mode ≡ mode.Running }
        requires clean { IsClean (mode_behind turn) self.old.state }
        ensures event { result ≡ event_of turn self.old.state }
        ensures machine { self.new ≡ behind turn (core_of self.old) }
    {
        let (mode, event) = match turn {
            Turn::Goes => (Mode::Running, Event::Going),
            Turn::Errs(code) => (Mode::Failed(code), Event::Error(code)),
            Turn::Halts(12) => (Mode::Asleep, self.halt(12)),
            Turn::Halts(code) => (Mode::Halted(code), self.halt(code)),
            Turn::Asks(native) => (Mode::Waiting, Event::Native(native)),
        };
        self.mode = mode;
        event
    }

    /// The event of a halt.
    fn halt(&self, code: i32) -> Event
        ensures { result ≡ event.Halt code self.now.state.pri self.now.state.alt }
    {
        Event::Halt {
            code,
            pri: self.core.pri(),
            alt: self.core.alt(),
        }
    }

    /// Goes on. Behind a sleep what is dead is 0, whatever came back of what was lent.
    pub(crate) fn wake(&mut self)
        ensures { self.new ≡ record self.old { mode = mode.Running } }
    {
        match self.mode {
            Mode::Asleep => {
                self.core.sweep();
                self.mode = Mode::Running;
            }
            Mode::Loaded | Mode::Running | Mode::Waiting | Mode::Halted(_) | Mode::Failed(_) => {
                self.mode = Mode::Running;
            }
        }
    }
}

/// The address of an entry by its number.
fn entry_of(amx: &Amx, entry: i32) -> Option<i32>
    ensures { result ≡ address_by amx.now entry }
{
    if entry == -1 {
        return if amx.entry == -1 {
            None
        } else {
            Some(amx.entry)
        };
    }
    let place = usize::try_from(entry).ok()?;
    let record = amx.publics.as_slice().get(place)?;
    Some(record.address)
}
