ghost use Rattle.std.specs.Prelude.{◌≡◌, ◌%◌, ◌+ℤ◌, pos};
ghost use Rattle.pawn_cells.specs.Cells.{bits_of, cell_of};
ghost use Rattle.amx_ops.specs.Effects.{stack_to, heap_to, when_multiple, set_register};
ghost use Rattle.amx_ops.specs.State as state;

use super::error::{ACCESS, COLLISION, HEAP_UNDERFLOW, STACK_UNDERFLOW};
use super::registers::Core;
use super::turn::Turn;

/// The bytes that stay free between heap and stack, also where a frame begins.
pub(crate) const MARGIN: u32 = 64;

// Registers that are moved or set.
impl Core {
    ghost use Rattle.amx_step.specs.Turns.{IsTurn};

    /// ALT = STK, and STK moves by a multiple of 4.
    #[inline(always)]
    pub fn move_stack(&mut self, by: i32, next: u32) -> Turn
        requires { bits_of by % 4 ≡ 0 }
        ensures { IsTurn (stack_to (pos self.old.state.stk +ℤ by) next
            (record self.old.state { alt = cell_of self.old.state.stk })) self.old result self.new }
    {
        let stk = i64::from(self.stk) + i64::from(by);
        if stk < 0 {
            return Turn::Errs(COLLISION);
        }
        let old = self.stk.cast_signed();
        let turn = self.stack_to(stk as u64, next);
        if turn == Turn::Goes {
            self.alt = old;
        }
        turn
    }

    /// ALT = HEA, and HEA moves by a multiple of 4.
    #[inline(always)]
    pub fn move_heap(&mut self, by: i32, next: u32) -> Turn
        requires { bits_of by % 4 ≡ 0 }
        ensures { IsTurn (heap_to self.old.amx (pos self.old.state.hea +ℤ by) next
            (record self.old.state { alt = cell_of self.old.state.hea })) self.old result self.new }
    {
        let hea = i64::from(self.hea) + i64::from(by);
        if hea < 0 {
            return Turn::Errs(HEAP_UNDERFLOW);
        }
        let old = self.hea.cast_signed();
        let turn = self.heap_to(hea as u64, next);
        if turn == Turn::Goes {
            self.alt = old;
        }
        turn
    }

    /// HEA, STK, FRM or CIP = PRI, by the number 2, 4, 5 or 6.
    pub fn set_register(&mut self, number: u32, next: u32) -> Turn
        ensures { IsTurn (set_register self.old.amx next number self.old.state)
            self.old result self.new }
    {
        match number {
            2 => self.set_heap(next),
            4 => self.set_stack(next),
            5 => {
                self.frm = self.pri.cast_unsigned();
                self.cip = next;
                Turn::Goes
            }
            _ => self.jump_to(self.pri.cast_unsigned()),
        }
    }

    fn set_heap(&mut self, next: u32) -> Turn
        ensures { IsTurn (when_multiple self.old.state.pri
            (heap_to self.old.amx self.old.state.pri next self.old.state))
            self.old result self.new }
    {
        if self.pri.cast_unsigned() % 4 != 0 {
            Turn::Errs(ACCESS)
        } else if self.pri < 0 {
            Turn::Errs(HEAP_UNDERFLOW)
        } else {
            self.heap_to(u64::from(self.pri.cast_unsigned()), next)
        }
    }

    fn set_stack(&mut self, next: u32) -> Turn
        ensures { IsTurn (when_multiple self.old.state.pri
            (stack_to self.old.state.pri next self.old.state)) self.old result self.new }
    {
        if self.pri.cast_unsigned() % 4 != 0 {
            Turn::Errs(ACCESS)
        } else if self.pri < 0 {
            Turn::Errs(COLLISION)
        } else {
            self.stack_to(u64::from(self.pri.cast_unsigned()), next)
        }
    }

    /// STK = a number, or an error above the top or without the margin.
    #[inline(always)]
    fn stack_to(&mut self, stk: u64, next: u32) -> Turn
        requires { stk % 4 ≡ 0 }
        ensures { IsTurn (stack_to (pos stk) next self.old.state) self.old result self.new }
    {
        if stk > u64::from(self.stp) {
            Turn::Errs(STACK_UNDERFLOW)
        } else if stk < u64::from(self.hea + MARGIN) {
            Turn::Errs(COLLISION)
        } else {
            self.stk = stk as u32;
            self.cip = next;
            Turn::Goes
        }
    }

    /// HEA = a number, or an error below the data's end or without the margin.
    #[inline(always)]
    fn heap_to(&mut self, hea: u64, next: u32) -> Turn
        requires { hea % 4 ≡ 0 }
        ensures { IsTurn (heap_to self.old.amx (pos hea) next self.old.state)
            self.old result self.new }
    {
        if hea < u64::from(self.first_hea()) {
            Turn::Errs(HEAP_UNDERFLOW)
        } else if hea > u64::from(self.stk) || self.stk - (hea as u32) < MARGIN {
            Turn::Errs(COLLISION)
        } else {
            self.hea = hea as u32;
            self.cip = next;
            Turn::Goes
        }
    }

    /// The end of the data.
    pub(crate) fn first_hea(&self) -> u32
        ensures { result ≡ state.first_hea self.now.amx }
    {
        // For the prover alone: the invariant is opened, by which the product fits.
        let _ = &self.stk;
        4 * self.verified.amx().store.len() as u32
    }
}
