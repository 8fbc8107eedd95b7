ghost use Rattle.std.specs.Prelude.{◌≡◌, ◌≢◌, ◌+◌, ◌*◌, ◌%◌, ◌<◌, ◌≤◌, ℕ, length, pos};
ghost use Rattle.std.specs.List.{slice_index_or};
ghost use Rattle.amx_ops.specs.Access.{byte_at};
ghost use Rattle.amx_block.specs.Contents.{cell_at};

use super::block::Block;

impl Block {
    /// How many cells from two addresses on are equal, one after another: all so many, or those
    /// before the first that differ.
    pub fn equal_cells(&self, at: u32, to: u32, count: u32) -> u32
        requires aligned { (at % 4 ≡ 0) × (to % 4 ≡ 0) }
        requires within { (at + 4 * count ≤ 4 * length self.now.memory)
            × (to + 4 * count ≤ 4 * length self.now.memory) }
        ensures few { result ≤ count }
        ensures same { (k : ℕ) → k < 4 * result →
            byte_at self.now.memory (at + k) ≡ byte_at self.now.memory (to + k) }
        ensures differ { result < count →
            cell_at self.now.memory (at + 4 * result) ≢ cell_at self.now.memory (to + 4 * result) }
    {
        equal_front(self.part(at, count), self.part(to, count)) as u32
    }
}

/// How many numbers at the front of two lists are equal.
fn equal_front(first: &[i32], second: &[i32]) -> usize
    requires { length first.now ≡ length second.now }
    ensures few { result ≤ length first.now }
    ensures same { (i : ℕ) → i < result →
        slice_index_or first.now i (pos 0) ≡ slice_index_or second.now i (pos 0) }
    ensures differ { result < length first.now →
        slice_index_or first.now result (pos 0) ≢ slice_index_or second.now result (pos 0) }
{
    for place in 0..first.len() {
        if first[place] != second[place] {
            return place;
        }
    }
    first.len()
}
