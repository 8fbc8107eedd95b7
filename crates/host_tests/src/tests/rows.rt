ghost use Rattle.std.specs.Prelude.{◌≡◌, IfSome, length};

use super::stage::{add, give, start};
use host_many::{Host, Served};
use pawn_outside::MemorySink;
use std::alloc::Global;

/// The file of an empty main, spelled by hand: the header, no tables, and five cells of code.
const EMPTY: [u8; 80] = [
    80, 0, 0, 0, 0xE0, 0xF1, 8, 8, 0, 0, 8, 0, // size, magic number, versions, flags, record size
    60, 0, 0, 0, 80, 0, 0, 0, 80, 0, 0, 0, 0x50, 0x40, 0, 0, 8, 0, 0, 0, // cod to stp, cip
    56, 0, 0, 0, 56, 0, 0, 0, 56, 0, 0, 0, 56, 0, 0, 0, 56, 0, 0, 0, 56, 0, 0, 0, // tables
    31, 0, 0, 0, // the name table, and two bytes before the code
    120, 0, 0, 0, 0, 0, 0, 0, 46, 0, 0, 0, 89, 0, 0, 0, 48, 0, 0, 0,
];

/// A host with a machine of this file.
fn one(alloc: Global) -> Option<Host>
    ensures { IfSome result (λ host. length host ≡ 1) }
{
    let mut host = Host::new(alloc);
    add(alloc, &mut host, &EMPTY, "{}")?;
    Some(host)
}

/// What a machine prints that is started while it runs, is given no step, one and all, and is started
/// again when it is done, over a sink of a room; and how the last event ended.
fn prints(alloc: Global, room: u32, text: &str) -> bool {
    let Some(mut host) = one(alloc) else {
        return false;
    };
    let Ok(mut out) = MemorySink::new(alloc, room, &[]) else {
        return false;
    };
    start(alloc, &mut host, 0, &mut out);
    give(&mut host, 0, 0, &mut out);
    start(alloc, &mut host, 0, &mut out);
    give(&mut host, 0, 1, &mut out);
    give(&mut host, 0, 1000, &mut out);
    give(&mut host, 0, 1000, &mut out);
    start(alloc, &mut host, 0, &mut out);
    give(&mut host, 0, 1000, &mut out) == Served::Done && out.bytes() == text.as_bytes()
}

#[test]
fn a_machine_is_started_again(rt: HostRuntime) {
    assert!(rt; prints(rt.alloc(), 100, "0: busy\n0: done 0\n0: done 0\n"));
}
