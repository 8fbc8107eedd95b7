ghost use Rattle.std.specs.Prelude.{◌≡◌};
ghost use Rattle.amx_machine.specs.declared.mode.Mode.TheVariants as mode;
ghost use Rattle.host_embed.specs.Turns.{RunsSo, Turns, IsWaiting, answered, failed, parked};

use super::held::Held;
use super::modes::{is_steady, is_waiting};
use super::refusal::Refusal;
use amx_machine::Event;

// Steps and natives.
impl Held {
    /// Does so many steps, up to the first event other than Going, and tells how many were done: of
    /// a machine that was started and waits for no native. One that ended answers its last event
    /// again.
    pub fn run(&mut self, count: u64) -> Result<(u64, Event), Refusal>
        ensures { RunsSo self.old count result self.new }
    {
        if !is_steady(self.machine.mode()) {
            return Err(Refusal::Mode);
        }
        Ok(self.machine.run(count))
    }

    /// The answer of the native that is waited for, in PRI. Then it can be run.
    pub fn answer(&mut self, value: i32) -> Result<(), Refusal>
        ensures { Turns (IsWaiting self.old.machine) (answered value self.old.machine)
            self.old result self.new }
    {
        if !is_waiting(self.machine.mode()) {
            return Err(Refusal::Mode);
        }
        self.machine.answer(value);
        Ok(())
    }

    /// An error of the native that is waited for, which ends the machine.
    pub fn fail(&mut self, code: i32) -> Result<(), Refusal>
        ensures { Turns (IsWaiting self.old.machine) (failed code self.old.machine)
            self.old result self.new }
    {
        if !is_waiting(self.machine.mode()) {
            return Err(Refusal::Mode);
        }
        self.machine.fail(code);
        Ok(())
    }

    /// The answer of the native that is waited for, and a sleep there: an image can be saved, and
    /// the next run goes on behind the native.
    pub fn park(&mut self, value: i32) -> Result<(), Refusal>
        ensures { Turns (IsWaiting self.old.machine) (parked value self.old.machine)
            self.old result self.new }
    {
        if !is_waiting(self.machine.mode()) {
            return Err(Refusal::Mode);
        }
        self.machine.park(value);
        Ok(())
    }
}
