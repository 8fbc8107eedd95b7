use super::calls::main_runs;
use super::file::{file, goes_on, started};
use amx_machine::Event;
use std::alloc::Global;

/// HEAP 400000, CONST.pri 7, FILL 400000, CONST.pri 0x04030201, STOR.pri 16; CONST.pri 16,
/// CONST.alt 17 and MOVS 399999, a byte up, over what is still to be read; HALT 0.
const SHIFT: [i32; 18] = [
    45,
    400_000,
    11,
    7,
    119,
    400_000,
    11,
    0x0403_0201,
    15,
    16,
    11,
    16,
    12,
    17,
    117,
    399_999,
    120,
    0,
];

const DONE: Event = Event::Halt {
    code: 0,
    pri: 16,
    alt: 17,
};

/// Whether cells begin with two and go on with another one.
fn are(cells: &[i32], first: &[i32], other: i32) -> bool {
    for place in 2..cells.len() {
        if cells[place] != other {
            return false;
        }
    }
    cells.starts_with(first)
}

/// Whether a hundred thousand cells are filled and moved.
fn shift_holds(alloc: Global) -> bool {
    let Some(verified) = file(alloc, &SHIFT, 1_000_000, 0, &[]) else {
        return false;
    };
    match started(alloc, verified) {
        Some(mut machine) => goes_on(&mut machine, 100, 9, DONE)
            && is_shifted(machine.live_from(16)),
        None => false,
    }
}

fn is_shifted(cells: &[i32]) -> bool {
    cells.len() == 100_000 && are(cells, &[0x0302_0101, 0x0704], 0x0700)
}

#[test]
fn many_cells(rt: HostRuntime) {
    assert!(rt; shift_holds(rt.alloc()));
}

/// So many NOPs, run up to the code's end.
fn nops_run(alloc: Global, count: usize) -> Option<(u64, Event)> {
    let code = Vec::from_elem(alloc, 134, count).ok()?;
    main_runs(alloc, code.as_slice(), u64::MAX)
}

#[test]
fn much_code(rt: HostRuntime) {
    assert!(rt; nops_run(rt.alloc(), 100_000) == Some((100_001, Event::Error(6))));
}
