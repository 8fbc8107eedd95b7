ghost use Rattle.std.specs.Prelude.{◌≡◌};
ghost use Rattle.amx_step.specs.Groups.{group, sum_row};
ghost use Rattle.amx_step.specs.Done.{IsAt, IsReady, IsDone};

use super::registers::Core;
use super::turn::Turn;
use pawn_cells::Cell;

/// Shifts, products and sums.
#[inline(always)]
#[tactic(auto, using(crate::proofs::Firsts::first_some))]
pub fn shift_or_sum(machine: &mut Core, number: i32) -> Option<Turn>
    requires at { IsAt machine.old }
    requires ready { IsReady machine.old (sum_row number) }
    ensures { IsDone (sum_row number) machine.old result machine.new }
{
    if let Some(turn) = shift_group(machine, number) {
        return Some(turn);
    }
    sum_group(machine, number)
}

/// Jumps by sign, shifts and products.
#[inline(always)]
fn shift_group(machine: &mut Core, number: i32) -> Option<Turn>
    requires at { IsAt machine.old }
    requires ready { IsReady machine.old (group 59 15 number) }
    ensures { IsDone (group 59 15 number) machine.old result machine.new }
{
    match number {
        // JSLESS: jumps where PRI < ALT
        61 => {
            let (v, q) = (machine.operand(), machine.behind(2));
            Some(machine.jump_if(machine.pri() < machine.alt(), v.cast_unsigned(), q))
        }
        // JSLEQ: jumps where PRI <= ALT
        62 => {
            let (v, q) = (machine.operand(), machine.behind(2));
            Some(machine.jump_if(machine.pri() <= machine.alt(), v.cast_unsigned(), q))
        }
        // JSGRTR: jumps where PRI > ALT
        63 => {
            let (v, q) = (machine.operand(), machine.behind(2));
            Some(machine.jump_if(machine.alt() < machine.pri(), v.cast_unsigned(), q))
        }
        // JSGEQ: jumps where PRI >= ALT
        64 => {
            let (v, q) = (machine.operand(), machine.behind(2));
            Some(machine.jump_if(machine.alt() <= machine.pri(), v.cast_unsigned(), q))
        }
        // SHL: PRI <<= ALT
        65 => {
            let q = machine.behind(1);
            Some(machine.set_pri(Cell(machine.pri()).shl(Cell(machine.alt())).0, q))
        }
        // SHR: PRI >>= ALT, without sign
        66 => {
            let q = machine.behind(1);
            Some(machine.set_pri(Cell(machine.pri()).ushr(Cell(machine.alt())).0, q))
        }
        // SSHR: PRI >>= ALT
        67 => {
            let q = machine.behind(1);
            Some(machine.set_pri(Cell(machine.pri()).shr(Cell(machine.alt())).0, q))
        }
        // SHL.C.pri: PRI <<= v
        68 => {
            let (v, q) = (machine.operand(), machine.behind(2));
            Some(machine.set_pri(Cell(machine.pri()).shl(Cell(v)).0, q))
        }
        // SHL.C.alt: ALT <<= v
        69 => {
            let (v, q) = (machine.operand(), machine.behind(2));
            Some(machine.set_alt(Cell(machine.alt()).shl(Cell(v)).0, q))
        }
        // SHR.C.pri: PRI >>= v, without sign
        70 => {
            let (v, q) = (machine.operand(), machine.behind(2));
            Some(machine.set_pri(Cell(machine.pri()).ushr(Cell(v)).0, q))
        }
        // SHR.C.alt: ALT >>= v, without sign
        71 => {
            let (v, q) = (machine.operand(), machine.behind(2));
            Some(machine.set_alt(Cell(machine.alt()).ushr(Cell(v)).0, q))
        }
        // SMUL: PRI = PRI * ALT
        72 => {
            let q = machine.behind(1);
            Some(machine.set_pri(Cell(machine.pri()).mul(Cell(machine.alt())).0, q))
        }
        // SDIV: PRI = quotient of PRI by ALT, ALT = remainder
        73 => {
            let q = machine.behind(1);
            Some(machine.divide(machine.pri(), machine.alt(), q))
        }
        // SDIV.alt: PRI = quotient of ALT by PRI, ALT = remainder
        74 => {
            let q = machine.behind(1);
            Some(machine.divide(machine.alt(), machine.pri(), q))
        }
        // UMUL: PRI = PRI * ALT
        75 => {
            let q = machine.behind(1);
            Some(machine.set_pri(Cell(machine.pri()).mul(Cell(machine.alt())).0, q))
        }
        _ => None,
    }
}

/// Sums and bits.
#[inline(always)]
fn sum_group(machine: &mut Core, number: i32) -> Option<Turn>
    requires at { IsAt machine.old }
    requires ready { IsReady machine.old (group 74 15 number) }
    ensures { IsDone (group 74 15 number) machine.old result machine.new }
{
    match number {
        // UDIV: PRI = quotient of PRI by ALT, ALT = remainder, without sign
        76 => {
            let q = machine.behind(1);
            Some(machine.divide_unsigned(machine.pri(), machine.alt(), q))
        }
        // UDIV.alt: PRI = quotient of ALT by PRI, ALT = remainder, without sign
        77 => {
            let q = machine.behind(1);
            Some(machine.divide_unsigned(machine.alt(), machine.pri(), q))
        }
        // ADD: PRI = PRI + ALT
        78 => {
            let q = machine.behind(1);
            Some(machine.set_pri(Cell(machine.pri()).add(Cell(machine.alt())).0, q))
        }
        // SUB: PRI = PRI - ALT
        79 => {
            let q = machine.behind(1);
            Some(machine.set_pri(Cell(machine.pri()).sub(Cell(machine.alt())).0, q))
        }
        // SUB.alt: PRI = ALT - PRI
        80 => {
            let q = machine.behind(1);
            Some(machine.set_pri(Cell(machine.alt()).sub(Cell(machine.pri())).0, q))
        }
        // AND: PRI = PRI and ALT
        81 => {
            let q = machine.behind(1);
            Some(machine.set_pri(Cell(machine.pri()).and(Cell(machine.alt())).0, q))
        }
        // OR: PRI = PRI or ALT
        82 => {
            let q = machine.behind(1);
            Some(machine.set_pri(Cell(machine.pri()).or(Cell(machine.alt())).0, q))
        }
        // XOR: PRI = PRI xor ALT
        83 => {
            let q = machine.behind(1);
            Some(machine.set_pri(Cell(machine.pri()).xor(Cell(machine.alt())).0, q))
        }
        // NOT: PRI = 1 where PRI is 0, else 0
        84 => {
            let q = machine.behind(1);
            Some(machine.set_pri(Cell(machine.pri()).not().0, q))
        }
        // NEG: PRI = -PRI
        85 => {
            let q = machine.behind(1);
            Some(machine.set_pri(Cell(machine.pri()).neg().0, q))
        }
        // INVERT: PRI = PRI with all bits turned
        86 => {
            let q = machine.behind(1);
            Some(machine.set_pri(Cell(machine.pri()).invert().0, q))
        }
        // ADD.C: PRI = PRI + v
        87 => {
            let (v, q) = (machine.operand(), machine.behind(2));
            Some(machine.set_pri(Cell(machine.pri()).add(Cell(v)).0, q))
        }
        // SMUL.C: PRI = PRI * v
        88 => {
            let (v, q) = (machine.operand(), machine.behind(2));
            Some(machine.set_pri(Cell(machine.pri()).mul(Cell(v)).0, q))
        }
        // ZERO.pri: PRI = 0
        89 => {
            let q = machine.behind(1);
            Some(machine.set_pri(0, q))
        }
        // ZERO.alt: ALT = 0
        90 => {
            let q = machine.behind(1);
            Some(machine.set_alt(0, q))
        }
        _ => None,
    }
}
