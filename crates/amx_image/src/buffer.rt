ghost use Rattle.std.specs.Prelude.{◌≡◌, ◌≤◌, ◌+◌, ◌*◌, ◌++◌, [], All, IfOk, length};
ghost use Rattle.pawn_cells.specs.Cells.{IsCell};
ghost use Rattle.amx_step.specs.Machine.{cell_count};
ghost use Rattle.amx_format.specs.Layout.{half, word, cells};
ghost use Rattle.amx_ops.specs.Writable.{cells_limit};

use super::place::CELLS;
use amx_machine::Machine;
use pawn_base::Memory;
use std::alloc::Global;
use std::marker::Model;

/// The bytes of an image, in a room that is taken once. Contracts see the bytes and the room.
#[derive(Drop)]
pub struct ImageBuffer {
    held: Vec<u8>,
    room: usize,
}

impl Model for ImageBuffer {
    ghost use Rattle.std.specs.Prelude.{◌≤◌, vec_capacity};
    ghost use Rattle.amx_image.specs.Buffer.{Buffer};

    ghost Value = { Buffer };

    ghost view = { λ buffer. record { bytes = buffer.held.items; room = buffer.room } };

    ghost invariant = { λ buffer. buffer.room ≤ vec_capacity buffer.held };
}

/// The cells of a machine, from the data's first one to the stack's top.
pub fn cells_of(machine: &Machine) -> u32
    ensures count { result ≡ length machine.now.state.cells }
    ensures few { length machine.now.state.cells ≤ cells_limit }
    ensures file { length machine.now.state.cells ≡ cell_count machine.now.amx }
{
    let stk = machine.registers().stk;
    stk.cast_unsigned() / 4 + machine.live_from(stk).len() as u32
}

impl ImageBuffer {
    /// A buffer with room for an image of the machine: 72 bytes, and 4 for each of its cells. Only
    /// this call takes memory.
    pub fn new(alloc: Global, machine: &Machine) -> Result<ImageBuffer, Memory>
        ensures { IfOk result (λ buffer. buffer
            ≡ record { bytes = []; room = CELLS + 4 * length machine.now.state.cells }) }
    {
        let room = CELLS + 4 * cells_of(machine) as usize;
        let held = Vec::with_capacity(alloc, room)?;
        Ok(ImageBuffer { held, room })
    }

    /// Lends the bytes.
    pub fn bytes(&self) -> &[u8]
        ensures { result.now ≡ self.now.bytes }
    {
        self.held.as_slice()
    }

    pub(crate) fn clear(&mut self)
        ensures { self.new ≡ record self.old { bytes = [] } }
    {
        self.held.clear();
    }

    pub(crate) fn put(&mut self, more: &[u8])
        requires { length self.old.bytes + length more.now ≤ self.old.room }
        ensures bytes { self.new ≡ record self.old { bytes = self.old.bytes ++ more.now } }
        ensures size { length self.new.bytes ≡ length self.old.bytes + length more.now }
    {
        self.held.extend_from_slice(more).unwrap();
    }

    #[tactic(auto, unfolding(amx_format::specs::Layout::half))]
    pub(crate) fn put_half(&mut self, number: u16)
        requires { length self.old.bytes + 2 ≤ self.old.room }
        ensures bytes { self.new ≡ record self.old { bytes = self.old.bytes ++ half number } }
        ensures size { length self.new.bytes ≡ length self.old.bytes + 2 }
    {
        self.put(&number.to_le_bytes());
    }

    #[tactic(auto, unfolding(amx_format::specs::Layout::word))]
    pub(crate) fn put_word(&mut self, number: u32)
        requires { length self.old.bytes + 4 ≤ self.old.room }
        ensures bytes { self.new ≡ record self.old { bytes = self.old.bytes ++ word number } }
        ensures size { length self.new.bytes ≡ length self.old.bytes + 4 }
    {
        self.put(&number.to_le_bytes());
    }

    pub(crate) fn put_cells(&mut self, row: &[i32])
        requires { length self.old.bytes + 4 * length row.now ≤ self.old.room }
        ensures bytes { self.new ≡ record self.old { bytes = self.old.bytes ++ cells row.now } }
        ensures size { length self.new.bytes ≡ length self.old.bytes + 4 * length row.now }
        ensures fits { All IsCell row.now }
    {
        for index in 0..row.len() {
            let cell = row[index];
            self.put_word(cell.cast_unsigned());
        }
    }
}
