ghost use Rattle.std.specs.Prelude.{◌≡◌, ◌+◌, ◌*◌, ◌%◌, ◌<◌, length, pos, IsTrue};
ghost use Rattle.pawn_cells.specs.Cells.{bits_of};
ghost use Rattle.amx_ops.specs.Access.{load, store, raise};
ghost use Rattle.amx_ops.specs.Access as access;
ghost use Rattle.amx_ops.specs.Effects.{at_next};
ghost use Rattle.amx_ops.specs.Step.{act};
ghost use Rattle.amx_ops.specs.declared.op.Op.TheVariants as op;

use super::error::ACCESS;
use super::registers::Core;
use super::turn::Turn;
use pawn_cells::Cell;

// Loads and stores of cells.
impl Core {
    ghost use Rattle.amx_step.specs.Turns.{IsTurn};

    /// Whether a live cell begins at an address.
    #[inline(always)]
    pub(crate) fn is_live(&self, at: u32) -> bool
        ensures is { result ≡ access.is_live self.now.state at }
        ensures within { IsTrue result → (at % 4 ≡ 0) × (at < 4 * length self.now.state.cells) }
    {
        at % 4 == 0 && (at < self.hea || (self.stk <= at && at < self.stp))
    }

    /// PRI = the cell at an address.
    #[inline(always)]
    pub fn load_pri(&mut self, at: u32, next: u32) -> Turn
        ensures { IsTurn
            (load self.old.state at (λ x. at_next next (record self.old.state { pri = x })))
            self.old result self.new }
    {
        if !self.is_live(at) {
            return Turn::Errs(ACCESS);
        }
        self.pri = self.block.read(at);
        self.cip = next;
        Turn::Goes
    }

    /// ALT = the cell at an address.
    #[inline(always)]
    pub fn load_alt(&mut self, at: u32, next: u32) -> Turn
        ensures { IsTurn
            (load self.old.state at (λ x. at_next next (record self.old.state { alt = x })))
            self.old result self.new }
    {
        if !self.is_live(at) {
            return Turn::Errs(ACCESS);
        }
        self.alt = self.block.read(at);
        self.cip = next;
        Turn::Goes
    }

    /// PRI = the cell at the address that is the cell at an address.
    #[inline(always)]
    pub fn load_pri_through(&mut self, at: u32, next: u32) -> Turn
        ensures { IsTurn
            (load self.old.state at (λ a. load self.old.state (bits_of a)
            (λ x. at_next next (record self.old.state { pri = x })))) self.old result self.new }
    {
        if !self.is_live(at) {
            return Turn::Errs(ACCESS);
        }
        let place = self.block.read(at).cast_unsigned();
        self.load_pri(place, next)
    }

    /// ALT = the cell at the address that is the cell at an address.
    #[inline(always)]
    pub fn load_alt_through(&mut self, at: u32, next: u32) -> Turn
        ensures { IsTurn
            (load self.old.state at (λ a. load self.old.state (bits_of a)
            (λ x. at_next next (record self.old.state { alt = x })))) self.old result self.new }
    {
        if !self.is_live(at) {
            return Turn::Errs(ACCESS);
        }
        let place = self.block.read(at).cast_unsigned();
        self.load_alt(place, next)
    }

    /// The cell at an address = a value.
    #[inline(always)]
    pub fn store(&mut self, at: u32, value: i32, next: u32) -> Turn
        ensures { IsTurn (store self.old.state at value (at_next next)) self.old result self.new }
    {
        if !self.is_live(at) {
            return Turn::Errs(ACCESS);
        }
        self.block.write(at, value);
        self.cip = next;
        Turn::Goes
    }

    /// The cell at the address that is the cell at an address = a value.
    #[inline(always)]
    pub fn store_through(&mut self, at: u32, value: i32, next: u32) -> Turn
        ensures { IsTurn
            (load self.old.state at (λ a. store self.old.state (bits_of a) value (at_next next)))
            self.old result self.new }
    {
        if !self.is_live(at) {
            return Turn::Errs(ACCESS);
        }
        let place = self.block.read(at).cast_unsigned();
        self.store(place, value, next)
    }

    /// Adds to the cell at an address.
    #[inline(always)]
    pub fn raise(&mut self, at: u32, more: i32, next: u32) -> Turn
        ensures { IsTurn (raise self.old.state at more (at_next next)) self.old result self.new }
    {
        if !self.is_live(at) {
            return Turn::Errs(ACCESS);
        }
        let value = Cell(self.block.read(at)).add(Cell(more)).0;
        self.block.write(at, value);
        self.cip = next;
        Turn::Goes
    }

    /// Exchanges the cell at STK and PRI.
    #[inline(always)]
    pub fn swap_pri(&mut self, next: u32) -> Turn
        ensures { IsTurn (load self.old.state self.old.state.stk
            (λ x. store self.old.state self.old.state.stk self.old.state.pri
            (λ t. at_next next (record t { pri = x })))) self.old result self.new }
    {
        let at = self.stk;
        if !self.is_live(at) {
            return Turn::Errs(ACCESS);
        }
        let value = self.block.read(at);
        self.block.write(at, self.pri);
        self.pri = value;
        self.cip = next;
        Turn::Goes
    }

    /// Exchanges the cell at STK and ALT.
    #[inline(always)]
    pub fn swap_alt(&mut self, next: u32) -> Turn
        ensures { IsTurn (load self.old.state self.old.state.stk
            (λ x. store self.old.state self.old.state.stk self.old.state.alt
            (λ t. at_next next (record t { alt = x })))) self.old result self.new }
    {
        let at = self.stk;
        if !self.is_live(at) {
            return Turn::Errs(ACCESS);
        }
        let value = self.block.read(at);
        self.block.write(at, self.alt);
        self.alt = value;
        self.cip = next;
        Turn::Goes
    }

    /// PRI = the cell at ALT + (PRI << a count).
    #[inline(always)]
    pub fn load_shifted(&mut self, count: i32, next: u32) -> Turn
        ensures { IsTurn (act self.old.amx op.LidxB count next self.old.state)
            self.old result self.new }
    {
        let at = self.shifted(count).cast_unsigned();
        self.load_pri(at, next)
    }
}
