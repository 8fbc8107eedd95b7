ghost use Rattle.std.specs.Prelude.{◌≡◌};
ghost use Rattle.amx_step.specs.Groups.{group, host_row};
ghost use Rattle.amx_step.specs.Done.{IsAt, IsReady, IsDone};

use super::registers::Core;
use super::turn::Turn;
use pawn_cells::Cell;

/// Counts, blocks of bytes and the host.
#[inline(always)]
#[tactic(auto, using(crate::proofs::Firsts::first_some))]
pub fn count_or_ask(machine: &mut Core, number: i32) -> Option<Turn>
    requires at { IsAt machine.old }
    requires ready { IsReady machine.old (host_row number) }
    ensures { IsDone (host_row number) machine.old result machine.new }
{
    if let Some(turn) = count_group(machine, number) {
        return Some(turn);
    }
    host_group(machine, number)
}

/// Cells that are counted, and blocks of bytes.
#[inline(always)]
fn count_group(machine: &mut Core, number: i32) -> Option<Turn>
    requires at { IsAt machine.old }
    requires ready { IsReady machine.old (group 105 13 number) }
    ensures { IsDone (group 105 13 number) machine.old result machine.new }
{
    match number {
        // INC.pri: PRI + 1
        107 => {
            let q = machine.behind(1);
            Some(machine.set_pri(Cell(machine.pri()).add(Cell(1)).0, q))
        }
        // INC.alt: ALT + 1
        108 => {
            let q = machine.behind(1);
            Some(machine.set_alt(Cell(machine.alt()).add(Cell(1)).0, q))
        }
        // INC: [v] + 1
        109 => {
            let (v, q) = (machine.operand(), machine.behind(2));
            Some(machine.raise(v.cast_unsigned(), 1, q))
        }
        // INC.S: [FRM + v] + 1
        110 => {
            let (v, q) = (machine.operand(), machine.behind(2));
            Some(machine.raise(machine.in_frame(v), 1, q))
        }
        // INC.I: [PRI] + 1
        111 => {
            let q = machine.behind(1);
            Some(machine.raise(machine.pri().cast_unsigned(), 1, q))
        }
        // DEC.pri: PRI - 1
        112 => {
            let q = machine.behind(1);
            Some(machine.set_pri(Cell(machine.pri()).sub(Cell(1)).0, q))
        }
        // DEC.alt: ALT - 1
        113 => {
            let q = machine.behind(1);
            Some(machine.set_alt(Cell(machine.alt()).sub(Cell(1)).0, q))
        }
        // DEC: [v] - 1
        114 => {
            let (v, q) = (machine.operand(), machine.behind(2));
            Some(machine.raise(v.cast_unsigned(), -1, q))
        }
        // DEC.S: [FRM + v] - 1
        115 => {
            let (v, q) = (machine.operand(), machine.behind(2));
            Some(machine.raise(machine.in_frame(v), -1, q))
        }
        // DEC.I: [PRI] - 1
        116 => {
            let q = machine.behind(1);
            Some(machine.raise(machine.pri().cast_unsigned(), -1, q))
        }
        // MOVS: v bytes from PRI to ALT, as if read first
        117 => {
            let (v, q) = (machine.operand(), machine.behind(2));
            Some(machine.copy(
                machine.pri().cast_unsigned(),
                machine.alt().cast_unsigned(),
                v.cast_unsigned(),
                q,
            ))
        }
        // CMPS: compares v bytes at ALT and PRI
        118 => {
            let (v, q) = (machine.operand(), machine.behind(2));
            Some(machine.compare(
                machine.alt().cast_unsigned(),
                machine.pri().cast_unsigned(),
                v.cast_unsigned(),
                q,
            ))
        }
        // FILL: v bytes from ALT on = PRI, in cells
        119 => {
            let (v, q) = (machine.operand(), machine.behind(2));
            Some(machine.fill(
                machine.alt().cast_unsigned(),
                v.cast_unsigned(),
                machine.pri(),
                q,
            ))
        }
        _ => None,
    }
}

/// The host, case tables and others.
#[inline(always)]
fn host_group(machine: &mut Core, number: i32) -> Option<Turn>
    requires at { IsAt machine.old }
    requires ready { IsReady machine.old (group 118 12 number) }
    ensures { IsDone (group 118 12 number) machine.old result machine.new }
{
    match number {
        // HALT: halts with the code v
        120 => {
            let (v, q) = (machine.operand(), machine.behind(2));
            Some(machine.halt(v, q))
        }
        // BOUNDS: error 4 where PRI is above v, without sign
        121 => {
            let (v, q) = (machine.operand(), machine.behind(2));
            Some(machine.check_bounds(v, q))
        }
        // SYSREQ.pri: calls native number PRI
        122 => {
            let q = machine.behind(1);
            Some(machine.ask(machine.pri().cast_unsigned(), q))
        }
        // SYSREQ.C: calls native number v
        123 => {
            let (v, q) = (machine.operand(), machine.behind(2));
            Some(machine.ask_known(v.cast_unsigned(), q))
        }
        // JUMP.pri: CIP = PRI
        128 => Some(machine.jump_to(machine.pri().cast_unsigned())),
        // SWITCH: CIP = the address of PRI in the case table at v
        129 => {
            let v = machine.operand();
            Some(machine.switch(v.cast_unsigned()))
        }
        // CASETBL: count, default address, pairs of value and address. Executed, error 6
        130 => Some(machine.refuse()),
        // SWAP.pri: exchanges [STK] and PRI
        131 => {
            let q = machine.behind(1);
            Some(machine.swap_pri(q))
        }
        // SWAP.alt: exchanges [STK] and ALT
        132 => {
            let q = machine.behind(1);
            Some(machine.swap_alt(q))
        }
        // PUSH.ADR: pushes FRM + v
        133 => {
            let (v, q) = (machine.operand(), machine.behind(2));
            Some(machine.push(machine.in_frame(v).cast_signed(), q))
        }
        // NOP: nothing
        134 => {
            let q = machine.behind(1);
            Some(machine.go(q))
        }
        // BREAK: nothing
        137 => {
            let q = machine.behind(1);
            Some(machine.go(q))
        }
        _ => None,
    }
}
