ghost use Rattle.std.specs.Prelude.{◌≡◌, ◌⊎◌, ◌^◌, ◌/◌, ◌<◌, ◌≤◌, length, pos};
ghost use Rattle.amx_ops.specs.Access as access;
ghost use Rattle.amx_ops.specs.Access.{load_part, store_part};
ghost use Rattle.amx_ops.specs.Effects.{at_next};
ghost use Rattle.amx_ops.specs.State as state;
ghost use Rattle.amx_ops.specs.Step.{act};
ghost use Rattle.amx_ops.specs.declared.op.Op.TheVariants as op;
ghost use Rattle.amx_step.specs.CellBytes.{IsCount, IsPart};

use super::error::ACCESS;
use super::registers::Core;
use super::turn::Turn;

// Some bytes of a cell.
impl Core {
    ghost use Rattle.amx_step.specs.Turns.{IsTurn};

    /// PRI = so many bytes at an address, without sign.
    #[inline(always)]
    fn load_part(&mut self, at: u32, count: u32, next: u32) -> Turn
        requires { IsCount count }
        ensures { IsTurn (load_part self.old.state at count
            (λ x. at_next next (record self.old.state { pri = x }))) self.old result self.new }
    {
        if at % count != 0 || !self.is_live(4 * (at / 4)) {
            return Turn::Errs(ACCESS);
        }
        let cell = self.cell_in(at);
        self.pri = part(cell, at % 4, count).cast_signed();
        self.cip = next;
        Turn::Goes
    }

    /// So many bytes at an address = the low bytes of a value.
    #[inline(always)]
    fn store_part(&mut self, at: u32, count: u32, value: i32, next: u32) -> Turn
        requires { IsCount count }
        ensures { IsTurn (store_part self.old.state at count value (at_next next))
            self.old result self.new }
    {
        if at % count != 0 || !self.is_live(4 * (at / 4)) {
            return Turn::Errs(ACCESS);
        }
        let changed = with_part(self.cell_in(at), at % 4, count, value.cast_unsigned());
        self.set_cell_in(at, changed);
        self.cip = next;
        Turn::Goes
    }

    /// PRI = 1, 2 or 4 bytes at PRI.
    #[inline(always)]
    pub fn load_bytes(&mut self, count: i32, next: u32) -> Turn
        requires { (count ≡ pos 1) ⊎ ((count ≡ pos 2) ⊎ (count ≡ pos 4)) }
        ensures { IsTurn (act self.old.amx op.LodbI count next self.old.state)
            self.old result self.new }
    {
        let at = self.pri.cast_unsigned();
        // Compiled for one byte alone, there is no division.
        if count == 1 {
            self.load_part(at, 1, next)
        } else {
            self.load_part(at, count.cast_unsigned(), next)
        }
    }

    /// 1, 2 or 4 bytes at ALT = low bytes of PRI.
    #[inline(always)]
    pub fn store_bytes(&mut self, count: i32, next: u32) -> Turn
        requires { (count ≡ pos 1) ⊎ ((count ≡ pos 2) ⊎ (count ≡ pos 4)) }
        ensures { IsTurn (act self.old.amx op.StrbI count next self.old.state)
            self.old result self.new }
    {
        let (at, value) = (self.alt.cast_unsigned(), self.pri);
        if count == 1 {
            self.store_part(at, 1, value, next)
        } else {
            self.store_part(at, count.cast_unsigned(), value, next)
        }
    }

    /// The cell that an address lies in.
    fn cell_in(&self, at: u32) -> i32
        requires { at / 4 < length self.now.state.cells }
        ensures { result ≡ state.cell_at self.now.state at }
    {
        self.block.read(4 * (at / 4))
    }

    fn set_cell_in(&mut self, at: u32, value: i32)
        requires { at / 4 < length self.old.state.cells }
        ensures { self.new ≡ record self.old { state = access.with_cell self.old.state at value } }
    {
        self.block.write(4 * (at / 4), value);
    }
}

/// Bytes of a cell as a number.
fn part(cell: i32, from: u32, count: u32) -> u32
    requires { IsPart from count }
    ensures { result ≡ access.part cell from count }
{
    let bits = u64::from(cell.cast_unsigned());
    (bits / worth(from) % worth(count)) as u32
}

/// The cell with others in their place.
fn with_part(cell: i32, from: u32, count: u32, value: u32) -> i32
    requires { IsPart from count }
    ensures { result ≡ access.with_part cell from count value }
{
    let bits = u64::from(cell.cast_unsigned());
    let (scale, size) = (worth(from), worth(count));
    let old = bits / scale % size;
    let new = u64::from(value) % size;
    ((bits - old * scale + new * scale) as u32).cast_signed()
}

/// 256 to a power. What is divided by it is shifted.
#[inline(always)]
fn worth(power: u32) -> u64
    requires { power ≤ 4 }
    ensures value { result ≡ 256 ^ power }
    ensures some { 1 ≤ result }
{
    1 << (8 * power)
}
