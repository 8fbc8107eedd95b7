ghost use Rattle.std.specs.Prelude.{◌≡◌};
ghost use Rattle.amx_step.specs.Groups.{group, store_row};
ghost use Rattle.amx_step.specs.Done.{IsAt, IsReady, IsDone};

use super::registers::Core;
use super::turn::Turn;
use pawn_cells::Cell;

/// Stores and indexes.
#[inline(always)]
#[tactic(auto, using(crate::proofs::Firsts::first_some))]
pub fn store_or_index(machine: &mut Core, number: i32) -> Option<Turn>
    requires at { IsAt machine.old }
    requires ready { IsReady machine.old (store_row number) }
    ensures { IsDone (store_row number) machine.old result machine.new }
{
    if let Some(turn) = store_group(machine, number) {
        return Some(turn);
    }
    index_group(machine, number)
}

/// Stores.
#[inline(always)]
fn store_group(machine: &mut Core, number: i32) -> Option<Turn>
    requires at { IsAt machine.old }
    requires ready { IsReady machine.old (group 14 10 number) }
    ensures { IsDone (group 14 10 number) machine.old result machine.new }
{
    match number {
        // STOR.pri: [v] = PRI
        15 => {
            let (v, q) = (machine.operand(), machine.behind(2));
            Some(machine.store(v.cast_unsigned(), machine.pri(), q))
        }
        // STOR.alt: [v] = ALT
        16 => {
            let (v, q) = (machine.operand(), machine.behind(2));
            Some(machine.store(v.cast_unsigned(), machine.alt(), q))
        }
        // STOR.S.pri: [FRM + v] = PRI
        17 => {
            let (v, q) = (machine.operand(), machine.behind(2));
            Some(machine.store(machine.in_frame(v), machine.pri(), q))
        }
        // STOR.S.alt: [FRM + v] = ALT
        18 => {
            let (v, q) = (machine.operand(), machine.behind(2));
            Some(machine.store(machine.in_frame(v), machine.alt(), q))
        }
        // SREF.pri: [[v]] = PRI
        19 => {
            let (v, q) = (machine.operand(), machine.behind(2));
            Some(machine.store_through(v.cast_unsigned(), machine.pri(), q))
        }
        // SREF.alt: [[v]] = ALT
        20 => {
            let (v, q) = (machine.operand(), machine.behind(2));
            Some(machine.store_through(v.cast_unsigned(), machine.alt(), q))
        }
        // SREF.S.pri: [[FRM + v]] = PRI
        21 => {
            let (v, q) = (machine.operand(), machine.behind(2));
            Some(machine.store_through(machine.in_frame(v), machine.pri(), q))
        }
        // SREF.S.alt: [[FRM + v]] = ALT
        22 => {
            let (v, q) = (machine.operand(), machine.behind(2));
            Some(machine.store_through(machine.in_frame(v), machine.alt(), q))
        }
        // STOR.I: [ALT] = PRI
        23 => {
            let q = machine.behind(1);
            Some(machine.store(machine.alt().cast_unsigned(), machine.pri(), q))
        }
        // STRB.I: v bytes at ALT = low bytes of PRI
        24 => {
            let (v, q) = (machine.operand(), machine.behind(2));
            Some(machine.store_bytes(v, q))
        }
        _ => None,
    }
}

/// Indexes.
#[inline(always)]
fn index_group(machine: &mut Core, number: i32) -> Option<Turn>
    requires at { IsAt machine.old }
    requires ready { IsReady machine.old (group 24 6 number) }
    ensures { IsDone (group 24 6 number) machine.old result machine.new }
{
    match number {
        // LIDX: PRI = [ALT + 4 PRI]
        25 => {
            let q = machine.behind(1);
            Some(machine.load_pri(machine.indexed().cast_unsigned(), q))
        }
        // LIDX.B: PRI = [ALT + (PRI << v)]
        26 => {
            let (v, q) = (machine.operand(), machine.behind(2));
            Some(machine.load_shifted(v, q))
        }
        // IDXADDR: PRI = ALT + 4 PRI
        27 => {
            let q = machine.behind(1);
            Some(machine.set_pri(machine.indexed(), q))
        }
        // IDXADDR.B: PRI = ALT + (PRI << v)
        28 => {
            let (v, q) = (machine.operand(), machine.behind(2));
            Some(machine.set_pri(machine.shifted(v), q))
        }
        // ALIGN.pri: PRI = PRI xor (4 - v)
        29 => {
            let (v, q) = (machine.operand(), machine.behind(2));
            Some(machine.set_pri(Cell(machine.pri()).xor(Cell(4).sub(Cell(v))).0, q))
        }
        // ALIGN.alt: ALT = ALT xor (4 - v)
        30 => {
            let (v, q) = (machine.operand(), machine.behind(2));
            Some(machine.set_alt(Cell(machine.alt()).xor(Cell(4).sub(Cell(v))).0, q))
        }
        _ => None,
    }
}
