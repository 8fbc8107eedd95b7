ghost use Rattle.std.specs.Prelude.{◌≡◌, ◌+◌, ◌*◌, ◌%◌, ◌<◌, length, pos};
ghost use Rattle.pawn_cells.specs.Cells.{bits_of, cell_of};
ghost use Rattle.amx_ops.specs.Access.{load};
ghost use Rattle.amx_ops.specs.Effects.{at_next, jump};
ghost use Rattle.amx_ops.specs.State as state;
ghost use Rattle.amx_ops.specs.Step.{act};
ghost use Rattle.amx_ops.specs.declared.op.Op.TheVariants as op;

use super::error::{ACCESS, COLLISION, INSTRUCTION, STACK_UNDERFLOW};
use super::registers::Core;
use super::set::MARGIN;
use super::turn::Turn;

// The stack, the heap and frames.
impl Core {
    ghost use Rattle.amx_step.specs.Turns.{IsTurn};

    /// Pushes a cell.
    #[inline(always)]
    pub fn push(&mut self, value: i32, next: u32) -> Turn
        ensures { IsTurn (state.push self.old.state value (at_next next))
            self.old result self.new }
    {
        if self.hea + 4 > self.stk {
            return Turn::Errs(COLLISION);
        }
        self.stk -= 4;
        self.block.write(self.stk, value);
        self.cip = next;
        Turn::Goes
    }

    /// Pushes the cell at an address.
    #[inline(always)]
    pub fn push_from(&mut self, at: u32, next: u32) -> Turn
        ensures { IsTurn (load self.old.state at (λ x. state.push self.old.state x (at_next next)))
            self.old result self.new }
    {
        if !self.is_live(at) {
            return Turn::Errs(ACCESS);
        }
        let value = self.block.read(at);
        self.push(value, next)
    }

    /// Pops PRI.
    #[inline(always)]
    pub fn pop_pri(&mut self, next: u32) -> Turn
        ensures { IsTurn (state.pop self.old.state (λ x t. at_next next (record t { pri = x })))
            self.old result self.new }
    {
        if self.stk >= self.stp {
            return Turn::Errs(STACK_UNDERFLOW);
        }
        self.pri = self.block.read(self.stk);
        self.stk += 4;
        self.cip = next;
        Turn::Goes
    }

    /// Pops ALT.
    #[inline(always)]
    pub fn pop_alt(&mut self, next: u32) -> Turn
        ensures { IsTurn (state.pop self.old.state (λ x t. at_next next (record t { alt = x })))
            self.old result self.new }
    {
        if self.stk >= self.stp {
            return Turn::Errs(STACK_UNDERFLOW);
        }
        self.alt = self.block.read(self.stk);
        self.stk += 4;
        self.cip = next;
        Turn::Goes
    }

    /// A frame begins.
    #[inline(always)]
    pub fn enter(&mut self, next: u32) -> Turn
        ensures { IsTurn (act self.old.amx op.Proc (pos 0) next self.old.state)
            self.old result self.new }
    {
        if self.hea + 4 + MARGIN > self.stk {
            return Turn::Errs(COLLISION);
        }
        self.stk -= 4;
        self.block.write(self.stk, self.frm.cast_signed());
        self.frm = self.stk;
        self.cip = next;
        Turn::Goes
    }

    /// A frame ends.
    #[inline(always)]
    pub fn leave(&mut self) -> Turn
        ensures { IsTurn (act self.old.amx op.Ret (pos 0) 0 self.old.state)
            self.old result self.new }
    {
        if self.stp <= self.stk + 4 {
            return Turn::Errs(STACK_UNDERFLOW);
        }
        let frm = self.bits_at(self.stk);
        let cip = self.bits_at(self.stk + 4);
        if !self.is_start(cip) {
            return Turn::Errs(INSTRUCTION);
        }
        self.frm = frm;
        self.cip = cip;
        self.stk += 8;
        Turn::Goes
    }

    /// A frame ends, and its arguments go with their count of bytes.
    #[inline(always)]
    pub fn leave_with_arguments(&mut self) -> Turn
        ensures { IsTurn (act self.old.amx op.Retn (pos 0) 0 self.old.state)
            self.old result self.new }
    {
        if self.stp <= self.stk + 8 {
            return Turn::Errs(STACK_UNDERFLOW);
        }
        let frm = self.bits_at(self.stk);
        let cip = self.bits_at(self.stk + 4);
        let count = self.bits_at(self.stk + 8);
        let stk = u64::from(self.stk) + 12 + u64::from(count);
        if count % 4 != 0 {
            Turn::Errs(ACCESS)
        } else if stk > u64::from(self.stp) {
            Turn::Errs(STACK_UNDERFLOW)
        } else if !self.is_start(cip) {
            Turn::Errs(INSTRUCTION)
        } else {
            self.frm = frm;
            self.cip = cip;
            self.stk = stk as u32;
            Turn::Goes
        }
    }

    /// The cell at an address, without sign.
    #[inline(always)]
    fn bits_at(&self, at: u32) -> u32
        requires { (at % 4 ≡ 0) × (at < 4 * length self.now.state.cells) }
        ensures { result ≡ bits_of (state.cell_at self.now.state at) }
    {
        self.block.read(at).cast_unsigned()
    }

    /// Calls what is at an address that was computed.
    #[inline(always)]
    pub fn call_to(&mut self, at: u32, next: u32) -> Turn
        ensures { IsTurn (state.push self.old.state (cell_of next) (jump self.old.amx at))
            self.old result self.new }
    {
        if self.stk < self.hea + 4 {
            return Turn::Errs(COLLISION);
        }
        if !self.is_start(at) {
            return Turn::Errs(INSTRUCTION);
        }
        self.push(next.cast_signed(), at)
    }
}
