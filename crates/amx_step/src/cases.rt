ghost use Rattle.std.specs.Prelude.{◌≡◌, ◌+◌, ◌/◌, drop};
ghost use Rattle.amx_ops.specs.Effects as effects;
ghost use Rattle.amx_ops.specs.Effects.{at_next};

use super::registers::Core;
use super::turn::Turn;

// Case tables.
impl Core {
    ghost use Rattle.amx_step.specs.Turns.{IsTurn};

    /// Goes on where the case table at an address leads PRI.
    pub fn switch(&mut self, at: u32) -> Turn
        ensures { IsTurn
            (at_next (effects.case_of self.old.amx at self.old.state.pri) self.old.state)
            self.old result self.new }
    {
        self.cip = self.case_of(at);
        Turn::Goes
    }

    fn case_of(&self, at: u32) -> u32
        ensures { result ≡ effects.case_of self.now.amx at self.now.state.pri }
    {
        let code = self.verified.amx().code.as_slice();
        case_in(behind(code, (at / 4) as usize + 1), self.pri)
    }
}

/// The cells from one on.
fn behind(cells: &[i32], place: usize) -> &[i32]
    ensures { result.now ≡ drop place cells.now }
{
    if place < cells.len() {
        cells.split_at(place).1
    } else {
        &[]
    }
}

/// Where a table's count, default address and pairs lead a value.
fn case_in(cells: &[i32], value: i32) -> u32
    ensures { result ≡ effects.case_in cells.now value }
{
    let Some((count, rest)) = cells.split_first() else {
        return 0;
    };
    let Some((default, pairs)) = rest.split_first() else {
        return 0;
    };
    paired(pairs, value, count.cast_unsigned(), default.cast_unsigned())
}

/// The address of the first of so many pairs with a value, or another one.
fn paired(pairs: &[i32], value: i32, count: u32, other: u32) -> u32
    ensures { result ≡ effects.paired pairs.now value count other }
{
    let mut rest = pairs;
    for done in 0..count {
        let Some((found, behind)) = rest.split_first() else {
            return other;
        };
        let Some((address, others)) = behind.split_first() else {
            return other;
        };
        if *found == value {
            return address.cast_unsigned();
        }
        rest = others;
    }
    other
}
