ghost use Rattle.std.specs.Prelude.{◌≡◌};
ghost use Rattle.amx_step.specs.Groups.{group};
ghost use Rattle.amx_step.specs.Done.{IsAt, IsReady, IsDone};

use super::registers::Core;
use super::turn::Turn;
use pawn_cells::Cell;

/// Tests.
#[inline(always)]
pub fn test_group(machine: &mut Core, number: i32) -> Option<Turn>
    requires at { IsAt machine.old }
    requires ready { IsReady machine.old (group 89 16 number) }
    ensures { IsDone (group 89 16 number) machine.old result machine.new }
{
    match number {
        // ZERO: [v] = 0
        91 => {
            let (v, q) = (machine.operand(), machine.behind(2));
            Some(machine.store(v.cast_unsigned(), 0, q))
        }
        // ZERO.S: [FRM + v] = 0
        92 => {
            let (v, q) = (machine.operand(), machine.behind(2));
            Some(machine.store(machine.in_frame(v), 0, q))
        }
        // SIGN.pri: PRI = its low byte with sign
        93 => {
            let q = machine.behind(1);
            Some(machine.set_pri(Cell(machine.pri()).shl(Cell(24)).shr(Cell(24)).0, q))
        }
        // SIGN.alt: ALT = its low byte with sign
        94 => {
            let q = machine.behind(1);
            Some(machine.set_alt(Cell(machine.alt()).shl(Cell(24)).shr(Cell(24)).0, q))
        }
        // EQ: PRI = whether PRI = ALT
        95 => {
            let q = machine.behind(1);
            Some(machine.set_pri(i32::from(machine.pri() == machine.alt()), q))
        }
        // NEQ: PRI = whether PRI isn't ALT
        96 => {
            let q = machine.behind(1);
            Some(machine.set_pri(i32::from(machine.pri() != machine.alt()), q))
        }
        // LESS: PRI = whether PRI < ALT, without sign
        97 => {
            let q = machine.behind(1);
            Some(machine.set_pri(
                i32::from(machine.pri().cast_unsigned() < machine.alt().cast_unsigned()),
                q,
            ))
        }
        // LEQ: PRI = whether PRI <= ALT, without sign
        98 => {
            let q = machine.behind(1);
            Some(machine.set_pri(
                i32::from(machine.pri().cast_unsigned() <= machine.alt().cast_unsigned()),
                q,
            ))
        }
        // GRTR: PRI = whether PRI > ALT, without sign
        99 => {
            let q = machine.behind(1);
            Some(machine.set_pri(
                i32::from(machine.alt().cast_unsigned() < machine.pri().cast_unsigned()),
                q,
            ))
        }
        // GEQ: PRI = whether PRI >= ALT, without sign
        100 => {
            let q = machine.behind(1);
            Some(machine.set_pri(
                i32::from(machine.alt().cast_unsigned() <= machine.pri().cast_unsigned()),
                q,
            ))
        }
        // SLESS: PRI = whether PRI < ALT
        101 => {
            let q = machine.behind(1);
            Some(machine.set_pri(i32::from(machine.pri() < machine.alt()), q))
        }
        // SLEQ: PRI = whether PRI <= ALT
        102 => {
            let q = machine.behind(1);
            Some(machine.set_pri(i32::from(machine.pri() <= machine.alt()), q))
        }
        // SGRTR: PRI = whether PRI > ALT
        103 => {
            let q = machine.behind(1);
            Some(machine.set_pri(i32::from(machine.alt() < machine.pri()), q))
        }
        // SGEQ: PRI = whether PRI >= ALT
        104 => {
            let q = machine.behind(1);
            Some(machine.set_pri(i32::from(machine.alt() <= machine.pri()), q))
        }
        // EQ.C.pri: PRI = whether PRI = v
        105 => {
            let (v, q) = (machine.operand(), machine.behind(2));
            Some(machine.set_pri(i32::from(machine.pri() == v), q))
        }
        // EQ.C.alt: PRI = whether ALT = v
        106 => {
            let (v, q) = (machine.operand(), machine.behind(2));
            Some(machine.set_pri(i32::from(machine.alt() == v), q))
        }
        _ => None,
    }
}
