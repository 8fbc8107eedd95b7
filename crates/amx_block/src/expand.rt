ghost use Rattle.std.specs.Prelude.{◌≡◌, ◌⊎◌, ◌+◌, ◌-◌, ◌*◌, ◌<◌, ◌≤◌, ℕ, length, slice_set};
ghost use Rattle.amx_ops.specs.Access.{byte_at};
ghost use Rattle.amx_ops.specs.Writable.{cells_limit};
ghost use Rattle.amx_block.specs.Expanded.{IsExpanded, IsExpandedFrom, IsPackedIn};
ghost use Rattle.amx_block.specs.Packed.{groups, IsPacked, IsPiece};

use super::block::Block;
use pawn_cells::Cell;

impl Block {
    /// Expands the code and the data, whose compact form so many of the first bytes are.
    pub fn expand_from_end(&mut self, len: u32)
        requires { IsPackedIn len self.old }
        ensures { (p : IsPackedIn len self.old) → IsExpanded len self.old self.new p }
    {
        let count = self.code as usize + self.store as usize;
        expand_pieces(&mut self.cells, len as usize, count);
    }
}

/// Expands so many pieces in place, the last one first.
fn expand_pieces(cells: &mut Vec<i32>, len: usize, count: usize)
    requires packed { IsPacked cells.old.items len count }
    requires small { length cells.old.items ≤ cells_limit }
    ensures expanded { (p : IsPacked cells.old.items len count) →
        IsExpandedFrom cells.old.items cells.new.items len count 0 0 p }
    ensures size { length cells.new.items ≡ length cells.old.items }
{
    let mut end = len;
    for done in 0..count {
        end = expand_last(cells, end, count - 1 - done);
    }
}

/// Expands the piece that ends at a byte into a cell, and tells where it began.
fn expand_last(cells: &mut Vec<i32>, end: usize, place: usize) -> usize
    requires { (0 < end) × (end ≤ 4 * length cells.old.items) × (place < length cells.old.items)
        × (length cells.old.items ≤ cells_limit) }
    ensures start { (s : ℕ) → IsPiece cells.old.items s end →
        ((s ≡ 0) ⊎ (byte_at cells.old.items (s - 1) < 128)) → result ≡ s }
    ensures below { result < end }
    ensures cells { cells.new.items ≡ slice_set cells.old.items place
        (groups cells.old.items result (end - result)) }
{
    let start = start_of(cells.as_slice(), end);
    cells[place] = value(cells.as_slice(), start, end);
    start
}

/// Where the piece begins that ends at a byte.
fn start_of(cells: &[i32], end: usize) -> usize
    requires { (0 < end) × (end ≤ 4 * length cells.now) × (length cells.now ≤ cells_limit) }
    ensures below { result < end }
    ensures is { (s : ℕ) → IsPiece cells.now s end →
        ((s ≡ 0) ⊎ (byte_at cells.now (s - 1) < 128)) → result ≡ s }
{
    let mut start = end - 1;
    while start > 0 && byte(cells, start - 1) >= 128 {
        start -= 1;
    }
    start
}

/// The number that the groups of a piece spell.
fn value(cells: &[i32], start: usize, end: usize) -> i32
    requires { (start < end) × (end ≤ 4 * length cells.now) × (length cells.now ≤ cells_limit) }
    ensures { result ≡ groups cells.now start (end - start) }
{
    let sign = byte(cells, start) / 64 % 2;
    let mut sum = Cell(-i32::from(sign));
    for at in start..end {
        let group = byte(cells, at) % 128;
        sum = sum.mul(Cell(128)).add(Cell(i32::from(group)));
    }
    sum.0
}

fn byte(cells: &[i32], at: usize) -> u8
    requires { at < 4 * length cells.now }
    ensures { result ≡ byte_at cells.now at }
{
    Cell(cells[at / 4]).char_at(3 - (at % 4) as u32)
}
