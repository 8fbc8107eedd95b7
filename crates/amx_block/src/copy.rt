ghost use Rattle.std.specs.Prelude.{◌≡◌, ◌⊎◌, ◌+◌, ◌*◌, ◌%◌, ◌≤◌, length, IsTrue};
ghost use Rattle.amx_block.specs.Copied.{IsCopied, IsRun, IsRunFrom};

use super::block::{Block, CELL_BYTES};

impl Block {
    /// Copies so many bytes, as if all were read first.
    pub fn copy(&mut self, from: u32, to: u32, count: u32)
        requires from { from + count ≤ 4 * length self.old.memory }
        requires to { to + count ≤ 4 * length self.old.memory }
        ensures { IsCopied from to 0 count self.old self.new }
    {
        // For the prover alone: by its clause the addresses, and sums of them, fit.
        let _ = self.top();
        if are_whole(from, to, count) {
            self.copy_cells(from, to, count);
        } else if to <= from {
            self.copy_up(from, to, count);
        } else {
            self.copy_down(from, to, count);
        }
    }

    /// Copies whole cells.
    fn copy_cells(&mut self, from: u32, to: u32, count: u32)
        requires whole { (from % 4 ≡ 0) × ((to % 4 ≡ 0) × (count % 4 ≡ 0)) }
        requires from { from + count ≤ 4 * length self.old.memory }
        requires to { to + count ≤ 4 * length self.old.memory }
        ensures { IsCopied from to 0 count self.old self.new }
    {
        let code = self.code as usize;
        let first = code + (from / CELL_BYTES) as usize;
        let place = code + (to / CELL_BYTES) as usize;
        copy_whole(&mut self.cells, first, place, (count / CELL_BYTES) as usize);
    }

    fn copy_up(&mut self, from: u32, to: u32, count: u32)
        requires from { from + count ≤ 4 * length self.old.memory }
        requires to { to + count ≤ 4 * length self.old.memory }
        requires below { to ≤ from }
        ensures { IsCopied from to 0 count self.old self.new }
    {
        // For the prover alone: by its clause the addresses, and sums of them, fit.
        let _ = self.top();
        for i in 0..count {
            let byte = self.read_byte(from + i);
            self.write_byte(to + i, byte);
        }
    }

    fn copy_down(&mut self, from: u32, to: u32, count: u32)
        requires from { from + count ≤ 4 * length self.old.memory }
        requires to { to + count ≤ 4 * length self.old.memory }
        requires above { from ≤ to }
        ensures { IsCopied from to 0 count self.old self.new }
    {
        // For the prover alone: by its clause the addresses, and sums of them, fit.
        let _ = self.top();
        for i in 0..count {
            let place = count - 1 - i;
            let byte = self.read_byte(from + place);
            self.write_byte(to + place, byte);
        }
    }
}

/// Whether bytes are whole cells.
fn are_whole(from: u32, to: u32, count: u32) -> bool
    ensures { IsTrue result → (from % 4 ≡ 0) × ((to % 4 ≡ 0) × (count % 4 ≡ 0)) }
{
    from % CELL_BYTES == 0 && to % CELL_BYTES == 0 && count % CELL_BYTES == 0
}

/// Copies so many cells, as if all were read first.
fn copy_whole(cells: &mut Vec<i32>, from: usize, to: usize, count: usize)
    requires from { from + count ≤ length cells.old.items }
    requires to { to + count ≤ length cells.old.items }
    ensures { IsRun from to count cells.old.items cells.new.items }
{
    if to <= from {
        copy_run(cells, from, to, count);
    } else {
        copy_run_down(cells, from, to, count);
    }
}

/// Copies so many cells, the last of them first.
fn copy_run_down(cells: &mut Vec<i32>, from: usize, to: usize, count: usize)
    requires from { from + count ≤ length cells.old.items }
    requires to { to + count ≤ length cells.old.items }
    requires above { from ≤ to }
    ensures { IsRunFrom 0 from to count cells.old.items cells.new.items }
{
    for i in 0..count {
        let place = count - 1 - i;
        let cell = cells[from + place];
        cells[to + place] = cell;
    }
}

/// Copies so many cells, one after another, where none is written before it is read.
fn copy_run(cells: &mut Vec<i32>, from: usize, to: usize, count: usize)
    requires from { from + count ≤ length cells.old.items }
    requires to { to + count ≤ length cells.old.items }
    requires apart { (to ≤ from) ⊎ (from + count ≤ to) }
    ensures { IsRun from to count cells.old.items cells.new.items }
{
    for i in 0..count {
        let cell = cells[from + i];
        cells[to + i] = cell;
    }
}
