ghost use Rattle.amx_machine.specs.Machine.{IsSteady};

use super::file::{file, goes_on, machine, started};
use amx_machine::{Event, Machine, Registers, StartFault};
use std::alloc::Global;

/// Entries with their arguments in rooms of so many cells, and the CIP and the cells from STK on
/// that a start comes to, or its AMX error and no cells.
const STARTS: [(u32, i32, &[i32], i32, &[i32]); 12] = [
    (20, -1, &[], 4, &[0, 0]),
    (20, -1, &[7], 4, &[0, 4, 7]),
    (20, 0, &[7, -9], 8, &[0, 8, 7, -9]),
    (20, 1, &[1, 2, 3], 0, &[0, 12, 1, 2, 3]),
    (20, 2, &[], 20, &[]),
    (20, -2, &[], 20, &[]),
    (20, i32::MIN, &[], 20, &[]),
    (2, -1, &[], 4, &[0, 0]),
    (2, -1, &[1], 3, &[]),
    (1, -1, &[], 3, &[]),
    (3, 0, &[1], 8, &[0, 4, 1]),
    (0, 2, &[1], 20, &[]),
];

fn start_holds(
    alloc: Global,
    room: u32,
    entry: i32,
    arguments: &[i32],
    wanted: (i32, &[i32]),
) -> bool {
    let Some(verified) = file(alloc, &[134, 134, 134], room, 4, &[8, 0]) else {
        return false;
    };
    let Some(mut machine) = machine(alloc, verified) else {
        return false;
    };
    let first = machine.registers();
    match machine.start(entry, arguments) {
        Ok(()) => runs_from(&machine, wanted.0, wanted.1),
        Err(fault) => {
            fault.code() == wanted.0 && wanted.1.is_empty() && machine.registers() == first
        }
    }
}

/// Whether a machine stands at a CIP with some cells from STK on, and else as at first.
fn runs_from(machine: &Machine, cip: i32, cells: &[i32]) -> bool {
    let at = machine.registers();
    let first = Registers {
        pri: 0,
        alt: 0,
        frm: 0,
        cip,
        stk: at.stk,
        hea: 16,
    };
    at == first && machine.live_from(at.stk) == cells
}

#[test]
fn starts(rt: HostRuntime) {
    for (room, entry, arguments, at, cells) in STARTS {
        assert!(rt; start_holds(rt.alloc(), room, entry, arguments, (at, cells)));
    }
}

#[test]
fn no_main(rt: HostRuntime) {
    assert!(rt; no_main_holds(rt.alloc()));
}

fn no_main_holds(alloc: Global) -> bool {
    let Some(verified) = file(alloc, &[134], 20, -1, &[]) else {
        return false;
    };
    match machine(alloc, verified) {
        Some(mut machine) => machine.start(-1, &[]) == Err(StartFault::Index),
        None => false,
    }
}

const DONE: Event = Event::Halt {
    code: 0,
    pri: 0,
    alt: 0,
};

/// Code with a bound of steps, the steps that are done, and the event.
const RUNS: [(&[i32], u64, u64, Event); 8] = [
    // BREAK, JUMP 0
    (&[137, 51, 0], 0, 0, Event::Going),
    (&[137, 51, 0], 5, 5, Event::Going),
    (&[137, 51, 0], 10_000, 10_000, Event::Going),
    // NOP, HALT 0
    (&[134, 120, 0], 1, 1, Event::Going),
    (&[134, 120, 0], 2, 2, DONE),
    (&[134, 120, 0], u64::MAX, 2, DONE),
    // a fetch at the code's end, and an error
    (&[134], 9, 2, Event::Error(6)),
    (&[134, 1, 2], 9, 2, Event::Error(5)),
];

/// Runs main of some code, up to so many steps.
pub fn main_runs(alloc: Global, code: &[i32], steps: u64) -> Option<(u64, Event)> {
    let verified = file(alloc, code, 1000, 0, &[])?;
    let mut machine = started(alloc, verified)?;
    Some(machine.run(steps))
}

#[test]
fn steps_are_counted(rt: HostRuntime) {
    for (code, steps, done, event) in RUNS {
        assert!(rt; main_runs(rt.alloc(), code, steps) == Some((done, event)));
    }
}

/// The count of bytes at STK, the arguments that it stands for, and the first two of them. Main was
/// started with two cells.
const NATIVES: [(i32, (Option<u32>, i32, i32)); 7] = [
    (8, (Some(2), 6, 5)),
    (4, (Some(1), 6, -1)),
    (0, (Some(0), -1, -1)),
    (16, (Some(4), 6, 5)),
    (20, (None, -1, -1)),
    (6, (None, -1, -1)),
    (-4, (None, -1, -1)),
];

/// An argument of a native, or -1.
fn argument(machine: &Machine, index: u32) -> i32 {
    match machine.native_args() {
        Some(count) if index < count => machine.native_arg(index),
        _ => -1,
    }
}

/// Whether a native has these arguments, behind PUSH.C 5, PUSH.C 6, PUSH.C count, SYSREQ.C 1.
fn native_holds(alloc: Global, count: i32, wanted: (Option<u32>, i32, i32)) -> bool {
    let Some(verified) = file(alloc, &[39, 5, 39, 6, 39, count, 123, 1], 1000, 0, &[]) else {
        return false;
    };
    match started(alloc, verified) {
        Some(mut machine) => machine.run(100).0 == 4 && arguments(&machine) == wanted,
        None => false,
    }
}

/// How many arguments a native has, and the first two.
fn arguments(machine: &Machine) -> (Option<u32>, i32, i32) {
    (
        machine.native_args(),
        argument(machine, 0),
        argument(machine, 1),
    )
}

#[test]
fn natives(rt: HostRuntime) {
    for (count, wanted) in NATIVES {
        assert!(rt; native_holds(rt.alloc(), count, wanted));
    }
}

/// HEAP 4, CONST.pri 77, STOR.pri 16, HEAP -4, HALT 12, HEAP 4, LOAD.pri 16, HALT 0
const SLEEP: [i32; 16] = [45, 4, 11, 77, 15, 16, 45, -4, 120, 12, 45, 4, 1, 16, 120, 0];

const ASLEEP: Event = Event::Halt {
    code: 12,
    pri: 77,
    alt: 20,
};

/// What was written below the heap's end is 0 behind the sleep.
const AWAKE: Event = Event::Halt {
    code: 0,
    pri: 0,
    alt: 16,
};

/// Whether it sleeps, goes on, ends, tells its end again and starts once more.
fn sleep_holds(alloc: Global) -> bool {
    let Some(verified) = file(alloc, &SLEEP, 1000, 0, &[]) else {
        return false;
    };
    match started(alloc, verified) {
        Some(mut machine) => sleeps_and_wakes(&mut machine),
        None => false,
    }
}

fn sleeps_and_wakes(machine: &mut Machine) -> bool
    requires { IsSteady machine.old.mode }
{
    goes_on(machine, 100, 5, ASLEEP)
        && goes_on(machine, 0, 0, Event::Going)
        && goes_on(machine, 1, 1, Event::Going)
        && goes_on(machine, 100, 2, AWAKE)
        && goes_on(machine, 100, 0, AWAKE)
        && starts_again(machine)
}

/// Whether a machine that is done starts once more.
fn starts_again(machine: &mut Machine) -> bool
    requires { IsSteady machine.old.mode }
{
    match machine.step() {
        Event::Halt { code: 0, .. } => machine.start(-1, &[]).is_ok(),
        _ => false,
    }
}

#[test]
fn sleeps(rt: HostRuntime) {
    assert!(rt; sleep_holds(rt.alloc()));
}

/// Addresses with the cells up to the end of their live part, in four cells of data and a room of
/// four.
const LIVE: [(i32, &[i32]); 8] = [
    (0, &[8, -2, 0x0403_0201, 92]),
    (12, &[92]),
    (16, &[]),
    (28, &[]),
    (32, &[]),
    (2, &[]),
    (-4, &[]),
    (i32::MIN, &[]),
];

fn live_holds(alloc: Global, at: i32, cells: &[i32]) -> bool {
    let Some(verified) = file(alloc, &[134], 4, 0, &[]) else {
        return false;
    };
    match machine(alloc, verified) {
        Some(machine) => machine.live_from(at) == cells,
        None => false,
    }
}

#[test]
fn live_parts(rt: HostRuntime) {
    for (at, cells) in LIVE {
        assert!(rt; live_holds(rt.alloc(), at, cells));
    }
}

const SET: Registers = Registers {
    pri: -7,
    alt: 5,
    frm: -1,
    cip: 56,
    stk: 20,
    hea: 16,
};

/// Whether registers are set over cleared cells, and it goes on from there.
fn set_holds(alloc: Global) -> bool {
    let Some(verified) = file(alloc, &SLEEP, 1000, 0, &[]) else {
        return false;
    };
    if verified.amx().store.len() != 4 || verified.amx().room != 1000 {
        return false;
    }
    match machine(alloc, verified) {
        Some(mut machine) => {
            machine.set_asleep(SET);
            stands_set(&machine) && goes_on(&mut machine, 9, 1, SET_END)
        }
        None => false,
    }
}

fn stands_set(machine: &Machine) -> bool {
    machine.registers() == SET
        && machine.live_from(0) == [0, 0, 0, 0].as_slice()
        && machine.live_from(20).len() == 999
}

const SET_END: Event = Event::Halt {
    code: 0,
    pri: -7,
    alt: 5,
};

#[test]
fn set_asleep(rt: HostRuntime) {
    assert!(rt; set_holds(rt.alloc()));
}
