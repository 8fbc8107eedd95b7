ghost use Rattle.std.specs.Prelude.{◌≡◌, ◌≢◌, nat_lt, pos, if◌then◌else◌};
ghost use Rattle.pawn_cells.specs.Cells.{bits_of, floor_div, floor_rem, unsigned_div, unsigned_rem};
ghost use Rattle.amx_ops.specs.Effects.{at_next, jump, jump_if, divide, ask};
ghost use Rattle.amx_ops.specs.State as state;
ghost use Rattle.amx_ops.specs.Step.{act};
ghost use Rattle.amx_ops.specs.declared.op.Op.TheVariants as op;

use super::error::{BOUNDS, DIVIDE, INSTRUCTION, NOT_FOUND};
use super::registers::Core;
use super::turn::Turn;
use pawn_cells::Cell;

// Where a machine goes on.
impl Core {
    ghost use Rattle.amx_step.specs.Turns.{IsTurn};

    /// Goes on at an address.
    #[inline(always)]
    pub fn go(&mut self, to: u32) -> Turn
        ensures { IsTurn (at_next to self.old.state) self.old result self.new }
    {
        self.cip = to;
        Turn::Goes
    }

    /// Goes on at one of two addresses.
    #[inline(always)]
    pub fn jump_if(&mut self, test: bool, to: u32, next: u32) -> Turn
        ensures { IsTurn (jump_if test to next self.old.state) self.old result self.new }
    {
        self.cip = if test { to } else { next };
        Turn::Goes
    }

    /// Goes on at an address that was computed.
    #[inline(always)]
    pub fn jump_to(&mut self, at: u32) -> Turn
        ensures { IsTurn (jump self.old.amx at self.old.state) self.old result self.new }
    {
        if !self.is_start(at) {
            return Turn::Errs(INSTRUCTION);
        }
        self.cip = at;
        Turn::Goes
    }

    /// PRI = the quotient, rounded down, and ALT = the remainder.
    #[inline(always)]
    pub fn divide(&mut self, a: i32, d: i32, next: u32) -> Turn
        ensures { IsTurn (divide floor_div floor_rem a d next self.old.state)
            self.old result self.new }
    {
        if d == 0 {
            return Turn::Errs(DIVIDE);
        }
        self.set_both(quotient_of(a, d), rest_of(a, d), next)
    }

    /// The same without sign.
    #[inline(always)]
    pub fn divide_unsigned(&mut self, a: i32, d: i32, next: u32) -> Turn
        ensures { IsTurn (divide unsigned_div unsigned_rem a d next self.old.state)
            self.old result self.new }
    {
        if d == 0 {
            return Turn::Errs(DIVIDE);
        }
        let (a, d) = (a.cast_unsigned(), d.cast_unsigned());
        self.set_both((a / d).cast_signed(), (a % d).cast_signed(), next)
    }

    /// Goes on where PRI isn't above a bound, without sign.
    #[inline(always)]
    pub fn check_bounds(&mut self, bound: i32, next: u32) -> Turn
        ensures { IsTurn (if nat_lt (bits_of bound) (bits_of self.old.state.pri)
            then state.Errs (pos 4) else at_next next self.old.state) self.old result self.new }
    {
        if bound.cast_unsigned() < self.pri.cast_unsigned() {
            return Turn::Errs(BOUNDS);
        }
        self.cip = next;
        Turn::Goes
    }

    /// Calls a native by its number, if it is there.
    #[inline(always)]
    pub fn ask(&mut self, number: u32, next: u32) -> Turn
        ensures { IsTurn (ask self.old.amx number (record self.old.state { cip = next }))
            self.old result self.new }
    {
        if number as usize >= self.verified.amx().natives.len() {
            return Turn::Errs(NOT_FOUND);
        }
        self.cip = next;
        Turn::Asks(number)
    }

    /// Calls a native that is there.
    #[inline(always)]
    pub fn ask_known(&mut self, number: u32, next: u32) -> Turn
        ensures { IsTurn (state.Asks number (record self.old.state { cip = next }))
            self.old result self.new }
    {
        self.cip = next;
        Turn::Asks(number)
    }

    /// An instruction that isn't executed.
    #[inline(always)]
    pub fn refuse(&mut self) -> Turn
        ensures { IsTurn (state.Errs (pos 6)) self.old result self.new }
    {
        Turn::Errs(INSTRUCTION)
    }

    /// Halts with a code; a sleep makes the cells between heap and stack 0.
    #[inline(always)]
    pub fn halt(&mut self, code: i32, next: u32) -> Turn
        ensures { IsTurn (act self.old.amx op.Halt code next self.old.state)
            self.old result self.new }
    {
        if code == 12 {
            self.sweep();
        }
        self.cip = next;
        Turn::Halts(code)
    }

    /// Makes the cells between heap and stack 0.
    pub fn sweep(&mut self)
        ensures { self.new ≡ record self.old { state = state.swept self.old.state } }
    {
        let count = (self.stk - self.hea) / 4;
        self.block.fill(self.hea, count, 0);
    }
}

/// The quotient, rounded down.
#[inline(always)]
fn quotient_of(a: i32, d: i32) -> i32
    requires { d ≢ pos 0 }
    ensures { result ≡ floor_div a d }
{
    match Cell(a).floor_div(Cell(d)) {
        None => 0,
        Some(quotient) => quotient.0,
    }
}

/// What that quotient leaves.
#[inline(always)]
fn rest_of(a: i32, d: i32) -> i32
    requires { d ≢ pos 0 }
    ensures { result ≡ floor_rem a d }
{
    match Cell(a).floor_rem(Cell(d)) {
        None => 0,
        Some(rest) => rest.0,
    }
}
