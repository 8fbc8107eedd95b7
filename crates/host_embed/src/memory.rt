ghost use Rattle.std.specs.Prelude.{◌≡◌, ◌≤◌, ◌++◌, drop, length, take, List, ℤ};
ghost use Rattle.pawn_cells.specs.Cells.{bits_of};
ghost use Rattle.amx_ops.specs.Moves.{live_from};
ghost use Rattle.host_embed.specs.Memory.{ArguesSo, CountsSo, TellsText, WritesSo, WritesText};
ghost use Rattle.host_embed.specs.Memory.{written};
ghost use Rattle.host_embed.specs.Written.{IsText, text_cells};

use super::held::Held;
use super::modes::is_waiting;
use super::refusal::Refusal;
use super::text::copy_text;
use super::written::{spell, text_cells};
use amx_machine::Machine;

// Arguments and memory.
impl Held {
    /// How many arguments the native has that is waited for; none where they aren't live.
    pub fn arguments(&self) -> Result<u32, Refusal>
        ensures { CountsSo self.now.machine result }
    {
        if !is_waiting(self.machine.mode()) {
            return Err(Refusal::Mode);
        }
        match self.machine.native_args() {
            Some(count) => Ok(count),
            None => Err(Refusal::Dead),
        }
    }

    /// One of them, from 0 on.
    pub fn argument(&self, index: u32) -> Result<i32, Refusal>
        ensures { ArguesSo self.now.machine index result }
    {
        let count = self.arguments()?;
        if index < count {
            Ok(self.machine.native_arg(index))
        } else {
            Err(Refusal::Index)
        }
    }

    /// Lends the cells from an address up to the end of its live part: none where it isn't live.
    pub fn live(&self, at: i32) -> &[i32]
        ensures { result.now ≡ live_from self.now.machine.state (bits_of at) }
    {
        self.machine.live_from(at)
    }

    /// Copies as many of them as there is room for, and tells how many there are.
    pub fn read(&self, at: i32, out: &mut [i32]) -> usize
        ensures count { result ≡ length (live_from self.now.machine.state (bits_of at)) }
        ensures cells { let live = live_from self.now.machine.state (bits_of at) in
            out.new ≡ take (length out.old) live ++ drop (length live) out.old }
    {
        let live = self.machine.live_from(at);
        copy_front(live, out);
        live.len()
    }

    /// Copies as many characters of the text at an address as there is room for, packed or not, and
    /// tells how many it has, up to the zero that ends it.
    #[tactic(auto, using(crate::proofs::MemoryLaws::live_length))]
    pub fn read_text(&self, at: i32, out: &mut [i32]) -> Result<usize, Refusal>
        ensures { TellsText self.now.machine at out.old result out.new }
    {
        // For the prover alone: by its clauses the memory is within its limit.
        let _ = self.machine.registers();
        match copy_text(self.machine.live_from(at), out) {
            Some(count) => Ok(count),
            None => Err(Refusal::Dead),
        }
    }

    /// Writes cells from an address on, where so many are live.
    pub fn write(&mut self, at: i32, cells: &[i32]) -> Result<(), Refusal>
        ensures { WritesSo self.old at cells.now result self.new }
    {
        if self.machine.live_from(at).len() < cells.len() {
            return Err(Refusal::Dead);
        }
        put(&mut self.machine, at, cells);
        Ok(())
    }

    /// Writes the cells of a text from an address on, packed or not, with a zero behind its bytes,
    /// where so many are live.
    pub fn write_text(&mut self, at: i32, text: &[u8], packed: bool) -> Result<(), Refusal>
        ensures { WritesText self.old at packed text.now result self.new }
    {
        if self.machine.live_from(at).len() < text_cells(text, packed) {
            return Err(Refusal::Dead);
        }
        put_text(&mut self.machine, at, text, packed);
        Ok(())
    }
}

/// Writes cells from an address on, where so many are live.
pub fn put(machine: &mut Machine, at: i32, cells: &[i32])
    requires { length cells.now ≤ length (live_from machine.old.state (bits_of at)) }
    ensures { machine.new ≡ written (bits_of at) cells.now machine.old }
{
    // For the prover alone: by its clauses the registers are in order.
    let _ = machine.registers();
    put_first(machine.live_from_mut(at), cells);
}

/// Writes the cells of a text from an address on, where so many are live.
fn put_text(machine: &mut Machine, at: i32, text: &[u8], packed: bool)
    requires { text_cells packed (length text.now)
        ≤ length (live_from machine.old.state (bits_of at)) }
    ensures { (cells : List ℤ) × IsText packed text.now cells
        × (machine.new ≡ written (bits_of at) cells machine.old) }
{
    // For the prover alone: by its clauses the registers are in order.
    let _ = machine.registers();
    spell(machine.live_from_mut(at), text, packed);
}

/// Puts cells in the place of a part's first.
fn put_first(part: &mut [i32], cells: &[i32])
    requires { length cells.now ≤ length part.old }
    ensures { part.new ≡ cells.now ++ drop (length cells.now) part.old }
{
    part[..cells.len()].copy_from_slice(cells);
}

/// Copies as many cells as there is room for.
fn copy_front(from: &[i32], to: &mut [i32])
    ensures { to.new ≡ take (length to.old) from.now ++ drop (length from.now) to.old }
{
    if from.len() <= to.len() {
        to[..from.len()].copy_from_slice(from);
    } else {
        to.copy_from_slice(&from[..to.len()]);
    }
}
