ghost use Rattle.std.specs.Prelude.{◌≡◌, ◌≤◌, OnOk, length};
ghost use Rattle.amx_ops.specs.Writable.{cells_limit};
ghost use Rattle.amx_machine.specs.Machine.{IsIdle};
ghost use Rattle.amx_machine.specs.Starts as machine_starts;
ghost use Rattle.host_embed.specs.Starts.{StandsSo, StartsSo, place_of};

use super::held::Held;
use super::modes::is_idle;
use super::refusal::Refusal;
use amx_machine::{Machine, StartFault};

// Starts.
impl Held {
    /// Starts a machine that was loaded or is done, at main, as -1, or at a public by its number.
    /// The cells are pushed, the last of them first: an entry's arguments, and behind them what it
    /// reaches by its address, as arrays and texts: the last so many stand at [`Held::place`] of
    /// so many.
    pub fn start(&mut self, entry: i32, cells: &[i32]) -> Result<(), Refusal>
        ensures { StartsSo self.old entry cells.now result self.new }
    {
        if !is_idle(self.machine.mode()) {
            return Err(Refusal::Mode);
        }
        match start_machine(&mut self.machine, entry, cells) {
            Ok(()) => Ok(()),
            Err(StartFault::Index) => return Err(Refusal::Index),
            Err(StartFault::Stack) => return Err(Refusal::Stack),
        }
    }

    /// The address at which the last so many cells of a start stand, where the memory has so many.
    pub fn place(&self, count: u32) -> Option<i32>
        ensures { result ≡ place_of self.now.machine.state.cells count }
    {
        let cells = cells_of(&self.machine);
        if count <= cells {
            Some((4 * (cells - count)).cast_signed())
        } else {
            None
        }
    }
}

/// Starts an idle machine: its cells stand where they are looked for.
fn start_machine(machine: &mut Machine, entry: i32, cells: &[i32]) -> Result<(), StartFault>
    requires { IsIdle machine.old.mode }
    ensures start { machine_starts.StartsSo machine.old entry cells.now result machine.new }
    ensures stands { OnOk result (StandsSo machine.old cells.now machine.new) }
{
    let started = machine.start(entry, cells);
    // For the prover alone: by its clauses the registers are in order.
    let _ = machine.registers();
    started
}

/// The cells of a machine, from the data's first one to the stack's top.
fn cells_of(machine: &Machine) -> u32
    ensures count { result ≡ length machine.now.state.cells }
    ensures few { length machine.now.state.cells ≤ cells_limit }
{
    let stk = machine.registers().stk;
    stk.cast_unsigned() / 4 + machine.live_from(stk).len() as u32
}
