ghost use Rattle.std.specs.Prelude.{◌≡◌, ◌≢◌, ◌+◌, ◌*◌, ◌%◌, ◌<◌, ◌≤◌, ◌++◌};
ghost use Rattle.std.specs.Prelude.{ℕ, IfOk, FitsSigned, length, take, drop, replicate};
ghost use Rattle.std.specs.Int.{w32};
ghost use Rattle.std.specs.Borrow.{sem};
ghost use Rattle.amx_block.specs.Lending.{LendsPart};
ghost use Rattle.amx_block.specs.Contents.{cell_at, with_cell, with_byte};
ghost use Rattle.amx_ops.specs.Access.{byte_at};
ghost use Rattle.amx_block.specs.Contents.{part_at, with_part, zeros};
ghost use Rattle.amx_ops.specs.Writable.{cells_limit, memory_limit};

use pawn_base::Memory;
use pawn_cells::Cell;
use std::alloc::Global;
use std::marker::Model;

/// The bytes of a cell.
pub(crate) const CELL_BYTES: u32 = 4;

/// One allocation for code, data, heap and stack (Implementer's Guide, "Memory layout"). Addresses
/// are in bytes, from the code's first cell for `code` and `set_code` and else from the data's
/// first cell; cells stand at multiples of 4.
#[derive(Drop)]
pub struct Block {
    pub(crate) cells: Vec<i32>,
    /// The cells of the code, and those of the data behind it.
    pub(crate) code: u32,
    pub(crate) store: u32,
}

impl Model for Block {
    ghost use Rattle.std.specs.Prelude.{take, drop};
    ghost use Rattle.amx_block.specs.Contents.{Contents, AreWithin};

    ghost Value = { Contents };

    ghost view = { λ b. record {
      code = take b.code b.cells.items;
      memory = drop b.code b.cells.items;
      store = b.store;
    } };

    ghost invariant = { λ b. AreWithin b.code b.store b.cells.items };
}

impl Block {
    /// A block of so many cells of code, of data, and of room for heap and stack. All are 0.
    pub fn new(alloc: Global, code: u32, store: u32, room: u32) -> Result<Block, Memory>
        requires { code + store + room ≤ cells_limit }
        ensures { IfOk result (λ block. block ≡ zeros code store room) }
    {
        let len = (code + store + room) as usize;
        let cells = Vec::from_elem(alloc, 0, len)?;
        Ok(Block { cells, code, store })
    }

    /// The address behind the memory's last cell.
    pub fn top(&self) -> u32
        ensures value { result ≡ 4 * length self.now.memory }
        ensures small { 4 * length self.now.memory ≤ memory_limit }
    {
        CELL_BYTES * (self.cells.len() as u32 - self.code)
    }

    /// A cell of the code.
    pub fn code(&self, at: u32) -> i32
        requires aligned { at % 4 ≡ 0 }
        requires within { at < 4 * length self.now.code }
        ensures { result ≡ cell_at self.now.code at }
    {
        self.cells[(at / CELL_BYTES) as usize]
    }

    pub fn set_code(&mut self, at: u32, value: i32)
        requires aligned { at % 4 ≡ 0 }
        requires within { at < 4 * length self.old.code }
        ensures { self.new ≡ record self.old { code = with_cell self.old.code at value } }
    {
        self.cells[(at / CELL_BYTES) as usize] = value;
    }

    pub fn read(&self, at: u32) -> i32
        requires aligned { at % 4 ≡ 0 }
        requires within { at < 4 * length self.now.memory }
        ensures { result ≡ cell_at self.now.memory at }
    {
        self.cell(at)
    }

    pub fn write(&mut self, at: u32, value: i32)
        requires aligned { at % 4 ≡ 0 }
        requires within { at < 4 * length self.old.memory }
        ensures { self.new ≡ record self.old { memory = with_cell self.old.memory at value } }
    {
        self.set_cell(at, value);
    }

    /// A byte of the memory, the least one of a cell first.
    pub fn read_byte(&self, at: u32) -> u8
        requires within { at < 4 * length self.now.memory }
        ensures { result ≡ byte_at self.now.memory at }
    {
        Cell(self.cell(at)).char_at(3 - at % CELL_BYTES)
    }

    pub fn write_byte(&mut self, at: u32, byte: u8)
        requires within { at < 4 * length self.old.memory }
        ensures value { self.new ≡ record self.old {
          memory = with_byte self.old.memory at byte;
        } }

        // It is read back, and all others are as they were.
        ensures same { byte_at self.new.memory at ≡ byte }
        ensures others { (k : ℕ) → k ≢ at →
            byte_at self.new.memory k ≡ byte_at self.old.memory k }
        ensures fits { FitsSigned w32 (cell_at self.new.memory at) }
    {
        let changed = Cell(self.cell(at)).with_char(3 - at % CELL_BYTES, byte);
        self.set_cell(at, changed.0);
    }

    /// Writes so many cells.
    pub fn fill(&mut self, at: u32, count: u32, value: i32)
        requires aligned { at % 4 ≡ 0 }
        requires within { at + 4 * count ≤ 4 * length self.old.memory }
        ensures { self.new ≡ record self.old {
          memory = with_part self.old.memory at count (replicate count value);
        } }
    {
        let place = self.code as usize + (at / CELL_BYTES) as usize;
        fill_run(&mut self.cells, place, count as usize, value);
    }

    /// Lends so many cells.
    pub fn part(&self, at: u32, count: u32) -> &[i32]
        requires aligned { at % 4 ≡ 0 }
        requires within { at + 4 * count ≤ 4 * length self.now.memory }
        ensures { result.now ≡ part_at self.now.memory at count }
    {
        let place = self.code as usize + (at / CELL_BYTES) as usize;
        &self.cells[place..place + count as usize]
    }

    /// Lends so many cells to be written in place.
    pub fn part_mut(&mut self, at: u32, count: u32) -> &mut [i32]
        requires aligned { at % 4 ≡ 0 }
        requires within { at + 4 * count ≤ 4 * length self.old.memory }
        ensures* writes_back { sem 𝓛 (LendsPart self.entry at result) }
        ensures value { result.now ≡ part_at self.old.memory at count }
    {
        let place = self.code as usize + (at / CELL_BYTES) as usize;
        let end = place + count as usize;
        self.cells.slice_mut(place..end)
    }

    /// The cell that an address lies in.
    fn cell(&self, at: u32) -> i32
        requires within { at < 4 * length self.now.memory }
        ensures { result ≡ cell_at self.now.memory at }
    {
        self.cells[self.code as usize + (at / CELL_BYTES) as usize]
    }

    fn set_cell(&mut self, at: u32, value: i32)
        requires within { at < 4 * length self.old.memory }
        ensures { self.new ≡ record self.old { memory = with_cell self.old.memory at value } }
    {
        let place = self.code as usize + (at / CELL_BYTES) as usize;
        self.cells[place] = value;
    }
}

fn fill_run(cells: &mut Vec<i32>, from: usize, count: usize, value: i32)
    requires { from + count ≤ length cells.old.items }
    ensures { cells.new.items ≡ take from cells.old.items
        ++ (replicate count value ++ drop (from + count) cells.old.items) }
{
    cells[from..from + count].fill(value);
}
