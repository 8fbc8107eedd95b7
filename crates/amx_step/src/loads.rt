ghost use Rattle.std.specs.Prelude.{◌≡◌};
ghost use Rattle.amx_step.specs.Groups.{group, load_row};
ghost use Rattle.amx_step.specs.Done.{IsAt, IsReady, IsDone};

use super::registers::Core;
use super::stores::store_or_index;
use super::turn::Turn;

/// Loads and stores.
#[inline(always)]
#[tactic(auto, using(crate::proofs::Firsts::first_some))]
pub fn load_or_store(machine: &mut Core, number: i32) -> Option<Turn>
    requires at { IsAt machine.old }
    requires ready { IsReady machine.old (load_row number) }
    ensures { IsDone (load_row number) machine.old result machine.new }
{
    if let Some(turn) = load_group(machine, number) {
        return Some(turn);
    }
    store_or_index(machine, number)
}

/// Loads, constants and addresses.
#[inline(always)]
fn load_group(machine: &mut Core, number: i32) -> Option<Turn>
    requires at { IsAt machine.old }
    requires ready { IsReady machine.old (group 0 14 number) }
    ensures { IsDone (group 0 14 number) machine.old result machine.new }
{
    match number {
        // LOAD.pri: PRI = [v]
        1 => {
            let (v, q) = (machine.operand(), machine.behind(2));
            Some(machine.load_pri(v.cast_unsigned(), q))
        }
        // LOAD.alt: ALT = [v]
        2 => {
            let (v, q) = (machine.operand(), machine.behind(2));
            Some(machine.load_alt(v.cast_unsigned(), q))
        }
        // LOAD.S.pri: PRI = [FRM + v]
        3 => {
            let (v, q) = (machine.operand(), machine.behind(2));
            Some(machine.load_pri(machine.in_frame(v), q))
        }
        // LOAD.S.alt: ALT = [FRM + v]
        4 => {
            let (v, q) = (machine.operand(), machine.behind(2));
            Some(machine.load_alt(machine.in_frame(v), q))
        }
        // LREF.pri: PRI = [[v]]
        5 => {
            let (v, q) = (machine.operand(), machine.behind(2));
            Some(machine.load_pri_through(v.cast_unsigned(), q))
        }
        // LREF.alt: ALT = [[v]]
        6 => {
            let (v, q) = (machine.operand(), machine.behind(2));
            Some(machine.load_alt_through(v.cast_unsigned(), q))
        }
        // LREF.S.pri: PRI = [[FRM + v]]
        7 => {
            let (v, q) = (machine.operand(), machine.behind(2));
            Some(machine.load_pri_through(machine.in_frame(v), q))
        }
        // LREF.S.alt: ALT = [[FRM + v]]
        8 => {
            let (v, q) = (machine.operand(), machine.behind(2));
            Some(machine.load_alt_through(machine.in_frame(v), q))
        }
        // LOAD.I: PRI = [PRI]
        9 => {
            let q = machine.behind(1);
            Some(machine.load_pri(machine.pri().cast_unsigned(), q))
        }
        // LODB.I: PRI = v bytes at PRI, without sign
        10 => {
            let (v, q) = (machine.operand(), machine.behind(2));
            Some(machine.load_bytes(v, q))
        }
        // CONST.pri: PRI = v
        11 => {
            let (v, q) = (machine.operand(), machine.behind(2));
            Some(machine.set_pri(v, q))
        }
        // CONST.alt: ALT = v
        12 => {
            let (v, q) = (machine.operand(), machine.behind(2));
            Some(machine.set_alt(v, q))
        }
        // ADDR.pri: PRI = FRM + v
        13 => {
            let (v, q) = (machine.operand(), machine.behind(2));
            Some(machine.set_pri(machine.in_frame(v).cast_signed(), q))
        }
        // ADDR.alt: ALT = FRM + v
        14 => {
            let (v, q) = (machine.operand(), machine.behind(2));
            Some(machine.set_alt(machine.in_frame(v).cast_signed(), q))
        }
        _ => None,
    }
}
