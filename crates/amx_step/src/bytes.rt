ghost use Rattle.std.specs.Prelude.{◌≡◌, ◌⊎◌, ◌+◌, ◌*◌, ◌%◌, ◌<◌, ◌≤◌, ℕ, length, IsTrue};
ghost use Rattle.amx_ops.specs.Access as access;
ghost use Rattle.amx_ops.specs.Effects.{at_next};

use super::error::ACCESS;
use super::registers::Core;
use super::turn::Turn;

// Blocks of bytes.
impl Core {
    ghost use Rattle.amx_step.specs.Turns.{IsTurn};

    /// Whether each of so many bytes from an address on is live.
    fn are_live(&self, at: u32, count: u32) -> bool
        ensures is { result ≡ access.are_live self.now.state at count }
        ensures within { IsTrue result →
            (count ≡ 0) ⊎ (at + count ≤ 4 * length self.now.state.cells) }
    {
        let end = u64::from(at) + u64::from(count);
        let (hea, stp) = (u64::from(self.hea), u64::from(self.stp));
        count == 0
            || end <= hea
            || (self.stk <= at && end <= stp)
            || (self.hea == self.stk && end <= stp)
    }

    /// Copies so many bytes, as if all were read first.
    pub fn copy(&mut self, from: u32, to: u32, count: u32, next: u32) -> Turn
        ensures { IsTurn (access.copy self.old.state from to count (at_next next))
            self.old result self.new }
    {
        if !self.are_live(from, count) || !self.are_live(to, count) {
            return Turn::Errs(ACCESS);
        }
        self.copy_bytes(from, to, count);
        self.cip = next;
        Turn::Goes
    }

    fn copy_bytes(&mut self, from: u32, to: u32, count: u32)
        requires from { (count ≡ 0) ⊎ (from + count ≤ 4 * length self.old.state.cells) }
        requires to { (count ≡ 0) ⊎ (to + count ≤ 4 * length self.old.state.cells) }
        ensures { self.new ≡ record self.old {
          state = record self.old.state {
            cells = access.cells_moved self.old.state.cells from to count;
          };
        } }
    {
        if count > 0 {
            self.copy_some(from, to, count);
        }
    }

    fn copy_some(&mut self, from: u32, to: u32, count: u32)
        requires from { from + count ≤ 4 * length self.old.state.cells }
        requires to { to + count ≤ 4 * length self.old.state.cells }
        ensures { self.new ≡ record self.old {
          state = record self.old.state {
            cells = access.cells_moved self.old.state.cells from to count;
          };
        } }
    {
        self.block.copy(from, to, count);
    }

    /// PRI = how so many bytes at an address stand to those at another: 0 where they are equal,
    /// else -1 or 1.
    pub fn compare(&mut self, at: u32, to: u32, count: u32, next: u32) -> Turn
        ensures { IsTurn (access.compare self.old.state at to count
            (λ x. at_next next (record self.old.state { pri = x }))) self.old result self.new }
    {
        if !self.are_live(at, count) || !self.are_live(to, count) {
            return Turn::Errs(ACCESS);
        }
        self.pri = if count > 0 {
            self.order(at, to, count)
        } else {
            0
        };
        self.cip = next;
        Turn::Goes
    }

    fn order(&self, at: u32, to: u32, count: u32) -> i32
        requires { (at + count ≤ 4 * length self.now.state.cells)
            × (to + count ≤ 4 * length self.now.state.cells) }
        ensures { result ≡ access.order_of (access.bytes_at self.now.state.cells at count)
            (access.bytes_at self.now.state.cells to count) }
    {
        // For the prover alone: by its clause each address fits.
        let _ = self.block.top();
        let equal = self.equal_front(at, to, count);
        for done in equal..count {
            let first = self.block.read_byte(at + done);
            let second = self.block.read_byte(to + done);
            if first < second {
                return -1;
            }
            if first > second {
                return 1;
            }
        }
        0
    }

    /// How many bytes two addresses have in common by whole cells; there may be more.
    fn equal_front(&self, at: u32, to: u32, count: u32) -> u32
        requires { (at + count ≤ 4 * length self.now.state.cells)
            × (to + count ≤ 4 * length self.now.state.cells) }
        ensures few { result ≤ count }
        ensures same { (k : ℕ) → k < result → access.byte_at self.now.state.cells (at + k)
            ≡ access.byte_at self.now.state.cells (to + k) }
    {
        if at % 4 == 0 && to % 4 == 0 {
            4 * self.block.equal_cells(at, to, count / 4)
        } else {
            0
        }
    }

    /// So many bytes from an address on = a value, in cells.
    pub fn fill(&mut self, at: u32, count: u32, value: i32, next: u32) -> Turn
        ensures { IsTurn (access.fill self.old.state at count value (at_next next))
            self.old result self.new }
    {
        if count > 0 && (at % 4 != 0 || !self.are_live(at, count)) {
            return Turn::Errs(ACCESS);
        }
        if count > 0 {
            self.block.fill(at, count / 4, value);
        }
        self.cip = next;
        Turn::Goes
    }
}
