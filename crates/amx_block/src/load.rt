ghost use Rattle.std.specs.Prelude.{◌≡◌, ◌≢◌, ◌+◌, ◌-◌, ◌*◌, ◌<◌, ◌≤◌, ℕ, FitsSigned, length};
ghost use Rattle.std.specs.Prelude.{slice_index};
ghost use Rattle.std.specs.Int.{w32};
ghost use Rattle.pawn_cells.specs.Cells.{char_at};
ghost use Rattle.amx_ops.specs.Access.{byte_at};
ghost use Rattle.amx_ops.specs.Writable.{cells_limit};
ghost use Rattle.amx_block.specs.Contents.{cell_at, with_byte};
ghost use Rattle.amx_block.specs.Loaded.{IsLoaded, IsPut};

use super::block::Block;
use pawn_cells::Cell;

impl Block {
    /// Puts bytes over the block's first ones, from the code on. A cell is its four bytes, the
    /// least one first.
    pub fn load_bytes(&mut self, bytes: &[u8])
        requires { length bytes.now ≤ 4 * (length self.old.code + length self.old.memory) }
        ensures { IsLoaded bytes.now self.old self.new }
    {
        put_bytes(&mut self.cells, bytes);
    }
}

/// Puts bytes over the first ones, whole cells at once.
fn put_bytes(cells: &mut Vec<i32>, bytes: &[u8])
    requires within { length bytes.now ≤ 4 * length cells.old.items }
    requires small { length cells.old.items ≤ cells_limit }
    ensures { IsPut bytes.now (length bytes.now) cells.old.items cells.new.items }
{
    let whole = bytes.len() / 4;
    put_cells(cells, bytes, whole);
    for at in 4 * whole..bytes.len() {
        put_byte(cells, at, bytes[at]);
    }
}

/// Puts the first cells, each from four bytes.
fn put_cells(cells: &mut Vec<i32>, bytes: &[u8], count: usize)
    requires bytes { 4 * count ≤ length bytes.now }
    requires cells { count ≤ length cells.old.items }
    requires small { length cells.old.items ≤ cells_limit }
    ensures { IsPut bytes.now (4 * count) cells.old.items cells.new.items }
{
    for place in 0..count {
        let cell = cell_of(bytes, 4 * place);
        cells[place] = cell;
    }
}

/// The cell that the four bytes at a place are.
fn cell_of(bytes: &[u8], at: usize) -> i32
    requires { at + 4 ≤ length bytes.now }
    ensures { (j : ℕ) → j < 4 → char_at result (3 - j) ≡ slice_index bytes.now (at + j) }
{
    i32::from_le_bytes([bytes[at], bytes[at + 1], bytes[at + 2], bytes[at + 3]])
}

fn put_byte(cells: &mut Vec<i32>, at: usize, byte: u8)
    requires { at < 4 * length cells.old.items }
    ensures value { cells.new.items ≡ with_byte cells.old.items at byte }

    // It is read back, and all others are as they were.
    ensures same { byte_at cells.new.items at ≡ byte }
    ensures others { (k : ℕ) → k ≢ at → byte_at cells.new.items k ≡ byte_at cells.old.items k }
    ensures fits { FitsSigned w32 (cell_at cells.new.items at) }
{
    let changed = Cell(cells[at / 4]).with_char(3 - (at % 4) as u32, byte);
    cells[at / 4] = changed.0;
}
