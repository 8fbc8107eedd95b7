ghost use Rattle.std.specs.Prelude.{◌≡◌};
ghost use Rattle.amx_step.specs.Groups.{group, call_row};
ghost use Rattle.amx_step.specs.Done.{IsAt, IsReady, IsDone};

use super::registers::Core;
use super::turn::Turn;

/// The stack, frames, calls and jumps.
#[inline(always)]
#[tactic(auto, using(crate::proofs::Firsts::first_some))]
pub fn call_or_jump(machine: &mut Core, number: i32) -> Option<Turn>
    requires at { IsAt machine.old }
    requires ready { IsReady machine.old (call_row number) }
    ensures { IsDone (call_row number) machine.old result machine.new }
{
    if let Some(turn) = stack_group(machine, number) {
        return Some(turn);
    }
    call_group(machine, number)
}

/// Registers, the stack and the heap.
#[inline(always)]
fn stack_group(machine: &mut Core, number: i32) -> Option<Turn>
    requires at { IsAt machine.old }
    requires ready { IsReady machine.old (group 30 15 number) }
    ensures { IsDone (group 30 15 number) machine.old result machine.new }
{
    match number {
        // LCTRL: PRI = a register, by its number v
        31 => {
            let (v, q) = (machine.operand(), machine.behind(2));
            Some(machine.set_pri(machine.register(v.cast_unsigned(), q), q))
        }
        // SCTRL: a register = PRI, by its number v
        32 => {
            let (v, q) = (machine.operand(), machine.behind(2));
            Some(machine.set_register(v.cast_unsigned(), q))
        }
        // MOVE.pri: PRI = ALT
        33 => {
            let q = machine.behind(1);
            Some(machine.set_pri(machine.alt(), q))
        }
        // MOVE.alt: ALT = PRI
        34 => {
            let q = machine.behind(1);
            Some(machine.set_alt(machine.pri(), q))
        }
        // XCHG: exchanges PRI and ALT
        35 => {
            let q = machine.behind(1);
            Some(machine.set_both(machine.alt(), machine.pri(), q))
        }
        // PUSH.pri: pushes PRI
        36 => {
            let q = machine.behind(1);
            Some(machine.push(machine.pri(), q))
        }
        // PUSH.alt: pushes ALT
        37 => {
            let q = machine.behind(1);
            Some(machine.push(machine.alt(), q))
        }
        // PUSH.C: pushes v
        39 => {
            let (v, q) = (machine.operand(), machine.behind(2));
            Some(machine.push(v, q))
        }
        // PUSH: pushes [v]
        40 => {
            let (v, q) = (machine.operand(), machine.behind(2));
            Some(machine.push_from(v.cast_unsigned(), q))
        }
        // PUSH.S: pushes [FRM + v]
        41 => {
            let (v, q) = (machine.operand(), machine.behind(2));
            Some(machine.push_from(machine.in_frame(v), q))
        }
        // POP.pri: pops PRI
        42 => {
            let q = machine.behind(1);
            Some(machine.pop_pri(q))
        }
        // POP.alt: pops ALT
        43 => {
            let q = machine.behind(1);
            Some(machine.pop_alt(q))
        }
        // STACK: ALT = STK, STK += v
        44 => {
            let (v, q) = (machine.operand(), machine.behind(2));
            Some(machine.move_stack(v, q))
        }
        // HEAP: ALT = HEA, HEA += v
        45 => {
            let (v, q) = (machine.operand(), machine.behind(2));
            Some(machine.move_heap(v, q))
        }
        // PROC: pushes FRM, FRM = STK
        46 => {
            let q = machine.behind(1);
            Some(machine.enter(q))
        }
        _ => None,
    }
}

/// Calls and jumps.
#[inline(always)]
fn call_group(machine: &mut Core, number: i32) -> Option<Turn>
    requires at { IsAt machine.old }
    requires ready { IsReady machine.old (group 45 14 number) }
    ensures { IsDone (group 45 14 number) machine.old result machine.new }
{
    match number {
        // RET: pops FRM and CIP
        47 => Some(machine.leave()),
        // RETN: pops FRM, CIP and a count, STK += count
        48 => Some(machine.leave_with_arguments()),
        // CALL: pushes the next address, CIP = v
        49 => {
            let (v, q) = (machine.operand(), machine.behind(2));
            Some(machine.push(q.cast_signed(), v.cast_unsigned()))
        }
        // CALL.pri: pushes the next address, CIP = PRI
        50 => {
            let q = machine.behind(1);
            Some(machine.call_to(machine.pri().cast_unsigned(), q))
        }
        // JUMP: CIP = v
        51 => {
            let v = machine.operand();
            Some(machine.go(v.cast_unsigned()))
        }
        // JREL: CIP = the next address + v
        52 => {
            let (v, q) = (machine.operand(), machine.behind(2));
            Some(machine.go(q.wrapping_add(v.cast_unsigned())))
        }
        // JZER: jumps where PRI = 0
        53 => {
            let (v, q) = (machine.operand(), machine.behind(2));
            Some(machine.jump_if(machine.pri() == 0, v.cast_unsigned(), q))
        }
        // JNZ: jumps where PRI isn't 0
        54 => {
            let (v, q) = (machine.operand(), machine.behind(2));
            Some(machine.jump_if(machine.pri() != 0, v.cast_unsigned(), q))
        }
        // JEQ: jumps where PRI = ALT
        55 => {
            let (v, q) = (machine.operand(), machine.behind(2));
            Some(machine.jump_if(machine.pri() == machine.alt(), v.cast_unsigned(), q))
        }
        // JNEQ: jumps where PRI isn't ALT
        56 => {
            let (v, q) = (machine.operand(), machine.behind(2));
            Some(machine.jump_if(machine.pri() != machine.alt(), v.cast_unsigned(), q))
        }
        // JLESS: jumps where PRI < ALT, without sign
        57 => {
            let (v, q) = (machine.operand(), machine.behind(2));
            Some(machine.jump_if(
                machine.pri().cast_unsigned() < machine.alt().cast_unsigned(),
                v.cast_unsigned(),
                q,
            ))
        }
        // JLEQ: jumps where PRI <= ALT, without sign
        58 => {
            let (v, q) = (machine.operand(), machine.behind(2));
            Some(machine.jump_if(
                machine.pri().cast_unsigned() <= machine.alt().cast_unsigned(),
                v.cast_unsigned(),
                q,
            ))
        }
        // JGRTR: jumps where PRI > ALT, without sign
        59 => {
            let (v, q) = (machine.operand(), machine.behind(2));
            Some(machine.jump_if(
                machine.alt().cast_unsigned() < machine.pri().cast_unsigned(),
                v.cast_unsigned(),
                q,
            ))
        }
        // JGEQ: jumps where PRI >= ALT, without sign
        60 => {
            let (v, q) = (machine.operand(), machine.behind(2));
            Some(machine.jump_if(
                machine.alt().cast_unsigned() <= machine.pri().cast_unsigned(),
                v.cast_unsigned(),
                q,
            ))
        }
        _ => None,
    }
}
