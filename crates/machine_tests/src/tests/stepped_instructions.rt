use super::file::file;
use super::row::Row;
use super::tables::{BLOCKS, FIRST_ERRORS, JUMPS, LOADS, STACKS, STORES, SUMS};
use amx_step::{Core, Registers, step};
use amx_verify::Verified;
use std::alloc::Global;

/// What memory holds, by cells, where it is live as a row begins; else 0.
const MEMORY: [i32; 24] = [
    8,
    -2,
    0x0403_0201,
    92,
    88,
    6,
    77,
    0,
    0,
    0,
    0,
    0,
    0,
    0,
    0,
    -4,
    i32::MAX,
    0,
    0,
    -1,
    4,
    8,
    12,
    40,
];

/// The cell that memory holds at an address.
fn held(at: i32) -> i32 {
    match MEMORY.get((at.cast_unsigned() / 4) as usize) {
        Some(cell) => *cell,
        None => 0,
    }
}

/// The cell at an address once a row's step is done.
fn expected(row: &Row, at: i32) -> i32 {
    for write in row.writes.chunks(2) {
        if let [place, cell] = *write {
            if place == at {
                return cell;
            }
        }
    }
    if at < row.start.hea || row.start.stk <= at {
        held(at)
    } else {
        0
    }
}

/// Whether these are the cells from an address on once a row's step is done.
fn are_expected(row: &Row, from: i32, cells: &[i32]) -> bool {
    let mut at = from;
    for cell in cells {
        if *cell != expected(row, at) {
            return false;
        }
        at = at.wrapping_add(4);
    }
    true
}

/// Puts what memory holds into the live part from an address on.
fn place(core: &mut Core, from: i32) {
    let part = core.live_from_mut(from);
    let mut at = from;
    for place in 0..part.len() {
        part[place] = held(at);
        at = at.wrapping_add(4);
    }
}

/// A machine that stands as a row begins; none where its registers aren't in their order.
fn placed(alloc: Global, verified: Verified, start: Registers) -> Option<Core> {
    let amx = verified.amx();
    let first = 4 * amx.store.len();
    let top = first + 4 * amx.room as usize;
    let hea = start.hea.cast_unsigned() as usize;
    let stk = start.stk.cast_unsigned() as usize;
    let mut core = Core::load(alloc, verified).ok()?;
    if hea % 4 != 0 || stk % 4 != 0 || hea < first || stk < hea || top < stk {
        return None;
    }
    core.clear(start);
    place(&mut core, 0);
    place(&mut core, start.stk);
    Some(core)
}

/// Whether a step does what a row says.
fn row_holds(alloc: Global, row: &Row) -> bool {
    let Some(verified) = file(alloc, row.code.as_slice(), 20, -1, &[]) else {
        return false;
    };
    let Some(mut core) = placed(alloc, verified, row.start) else {
        return false;
    };
    step(&mut core) == row.turn
        && core.registers() == row.end
        && are_expected(row, 0, core.live_from(0))
        && are_expected(row, row.end.stk, core.live_from(row.end.stk))
}

/// The first row that doesn't hold, or an empty one.
fn first_wrong(alloc: Global, rows: &str) -> &str {
    for text in rows.lines() {
        let Some(row) = Row::read(alloc, text) else {
            return text;
        };
        if !row_holds(alloc, &row) {
            return text;
        }
    }
    ""
}

#[test]
fn loads(rt: HostRuntime) {
    assert_eq!(rt; first_wrong(rt.alloc(), LOADS), "");
}

#[test]
fn stores(rt: HostRuntime) {
    assert_eq!(rt; first_wrong(rt.alloc(), STORES), "");
}

#[test]
fn stacks(rt: HostRuntime) {
    assert_eq!(rt; first_wrong(rt.alloc(), STACKS), "");
}

#[test]
fn jumps(rt: HostRuntime) {
    assert_eq!(rt; first_wrong(rt.alloc(), JUMPS), "");
}

#[test]
fn sums(rt: HostRuntime) {
    assert_eq!(rt; first_wrong(rt.alloc(), SUMS), "");
}

#[test]
fn blocks(rt: HostRuntime) {
    assert_eq!(rt; first_wrong(rt.alloc(), BLOCKS), "");
}

#[test]
fn errors_in_their_order(rt: HostRuntime) {
    assert_eq!(rt; first_wrong(rt.alloc(), FIRST_ERRORS), "");
}
