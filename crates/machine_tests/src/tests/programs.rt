ghost use Rattle.std.specs.Prelude.{◌≡◌};
ghost use Rattle.amx_machine.specs.Machine.{IsSteady};
ghost use Rattle.amx_machine.specs.declared.mode.Mode.TheVariants as mode;

use super::file::{file, goes_on, machine, started};
use amx_machine::{Event, Machine, Registers};
use std::alloc::Global;

/// The code of `main() { p(1); }`, behind a HALT 0: PROC, PUSH.C 1, PUSH.C 4, SYSREQ.C 0, STACK 8,
/// ZERO.pri, RETN.
const CALL: [i32; 13] = [120, 0, 46, 39, 1, 39, 4, 123, 0, 44, 8, 89, 48];

/// What a start in a room of so many cells and so many steps come to. A start that finds no room is
/// its AMX error.
fn comes_to(alloc: Global, room: u32, steps: u64) -> Option<(u64, Event)> {
    let verified = file(alloc, &CALL, room, 8, &[])?;
    let mut machine = machine(alloc, verified)?;
    match machine.start(-1, &[]) {
        Ok(()) => Some(machine.run(steps)),
        Err(fault) => Some((0, Event::Error(fault.code()))),
    }
}

/// Rooms and bounds, with the steps that are done and the event: a start needs two cells, PROC a
/// cell more and the margin of 64 bytes.
const CALLS: [(u32, u64, u64, Event); 13] = [
    (0, 100, 0, Event::Error(3)),
    (1, 100, 0, Event::Error(3)),
    (2, 100, 1, Event::Error(3)),
    (3, 100, 1, Event::Error(3)),
    (18, 100, 1, Event::Error(3)),
    (19, 100, 4, Event::Native(0)),
    (20, 100, 4, Event::Native(0)),
    (1_000_000, 100, 4, Event::Native(0)),
    (19, 0, 0, Event::Going),
    (19, 1, 1, Event::Going),
    (19, 3, 3, Event::Going),
    (19, 4, 4, Event::Native(0)),
    (19, u64::MAX, 4, Event::Native(0)),
];

#[test]
fn calls(rt: HostRuntime) {
    for (room, steps, done, event) in CALLS {
        assert!(rt; comes_to(rt.alloc(), room, steps) == Some((done, event)));
    }
}

/// Whether its native sees 1, changes at most PRI by its answer or else its error, and leads to so
/// many steps and an event.
fn answer_holds(alloc: Global, answer: Result<i32, i32>, steps: u64, event: Event) -> bool {
    let Some(verified) = file(alloc, &CALL, 19, 8, &[]) else {
        return false;
    };
    match started(alloc, verified) {
        Some(mut machine) => match machine.run(100) {
            (_, Event::Native(0)) => {
                sees_one(&machine)
                    && is_answered(&mut machine, answer)
                    && goes_on(&mut machine, 100, steps, event)
            }
            _ => false,
        },
        None => false,
    }
}

fn sees_one(machine: &Machine) -> bool {
    match machine.native_args() {
        Some(1) => machine.native_arg(0) == 1,
        _ => false,
    }
}

/// Answers a native by a number or an error, and tells whether at most PRI is another one then.
fn is_answered(machine: &mut Machine, answer: Result<i32, i32>) -> bool
    requires { machine.old.mode ≡ mode.Waiting }
    ensures { IsSteady machine.new.mode }
{
    let before = machine.registers();
    match answer {
        Ok(value) => {
            machine.answer(value);
            let behind = Registers {
                pri: value,
                ..before
            };
            machine.registers() == behind
        }
        Err(code) => {
            machine.fail(code);
            machine.registers() == before
        }
    }
}

/// ALT is what STK was before the arguments went.
const DONE: Event = Event::Halt {
    code: 0,
    pri: 0,
    alt: 72,
};

/// Answers and errors of the native, with what they lead to.
const ANSWERS: [(Result<i32, i32>, u64, Event); 4] = [
    (Ok(0), 4, DONE),
    (Ok(i32::MIN), 4, DONE),
    (Err(10), 0, Event::Error(10)),
    (Err(-1), 0, Event::Error(-1)),
];

#[test]
fn answers(rt: HostRuntime) {
    for (answer, steps, event) in ANSWERS {
        assert!(rt; answer_holds(rt.alloc(), answer, steps, event));
    }
}
