ghost use Rattle.std.specs.Prelude.{◌≡◌, IfSome, length};

use super::stage::{add, give, start};
use host_many::Host;
use pawn_outside::MemorySink;
use std::alloc::Global;
use std::rt::HostRuntime;

/// The compiled `light.p` of the examples, with compact cells.
const FILE: [u8; 359] = [
    103, 1, 0, 0, 224, 241, 8, 8, 4, 0, 8, 0, 88, 0, 0, 0, 100, 3, 0, 0, 156, 3, 0, 0, 156, 67, 0,
    0, 128, 2, 0, 0, 56, 0, 0, 0, 56, 0, 0, 0, 72, 0, 0, 0, 72, 0, 0, 0, 72, 0, 0, 0, 72, 0, 0, 0,
    0, 0, 0, 0, 74, 0, 0, 0, 0, 0, 0, 0, 79, 0, 0, 0, 31, 0, 108, 97, 109, 112, 0, 112, 114, 101,
    115, 115, 101, 100, 0, 0, 128, 120, 0, 46, 1, 52, 129, 1, 28, 129, 2, 3, 128, 64, 1, 128, 72,
    2, 129, 24, 3, 129, 104, 128, 120, 13, 11, 30, 36, 11, 4, 36, 39, 8, 128, 123, 0, 44, 12, 11,
    30, 12, 0, 128, 120, 12, 128, 89, 48, 11, 20, 36, 11, 20, 36, 39, 8, 128, 123, 0, 44, 12, 11,
    20, 12, 0, 128, 120, 12, 128, 89, 48, 11, 5, 36, 11, 28, 36, 39, 8, 128, 123, 0, 44, 12, 11, 5,
    12, 0, 128, 120, 12, 128, 89, 48, 46, 1, 52, 129, 1, 130, 76, 129, 2, 3, 130, 112, 1, 130, 120,
    2, 131, 96, 3, 132, 32, 128, 120, 13, 39, 0, 128, 123, 1, 44, 4, 53, 131, 88, 11, 1, 53, 131,
    80, 11, 2, 15, 52, 39, 0, 49, 8, 51, 131, 80, 51, 131, 88, 128, 89, 48, 11, 1, 53, 132, 24, 11,
    3, 15, 52, 39, 0, 49, 8, 51, 132, 24, 128, 89, 48, 1, 0, 128, 87, 1, 15, 0, 128, 87, 127, 11,
    1, 53, 132, 120, 11, 1, 15, 52, 39, 0, 49, 8, 51, 132, 120, 128, 89, 48, 46, 11, 1, 53, 133,
    60, 11, 1, 15, 52, 39, 0, 49, 8, 51, 133, 60, 1, 0, 36, 11, 1, 43, 128, 103, 53, 133, 120, 39,
    0, 49, 130, 56, 51, 133, 60, 1, 0, 48, 128, 89, 48, 0, 128, 114, 128, 101, 128, 100, 0, 134,
    187, 201, 202, 101, 134, 240, 128, 128, 0, 128, 97, 128, 109, 128, 98, 128, 101, 128, 114, 0,
    0,
];

const SCRIPT: &str = "{\"natives\": [{\"name\": \"lamp\", \"forms\": [\"text\", \"cell\"], \
    \"result\": 0}, {\"name\": \"pressed\"}], \"answers\": [{\"result\": 0}, {\"result\": 1}]}";

/// The lines of one run, as the example's text has them, each as both machines print it.
const LINES: &str = "0: native lamp \"red\" 30 -> 0\n1: native lamp \"red\" 30 -> 0\n\
    0: sleep 30 tag 0\n1: sleep 30 tag 0\n0: native pressed -> 0\n1: native pressed -> 0\n\
    0: native pressed -> 1\n1: native pressed -> 1\n\
    0: native lamp \"green\" 20 -> 0\n1: native lamp \"green\" 20 -> 0\n\
    0: sleep 20 tag 0\n1: sleep 20 tag 0\n\
    0: native lamp \"amber\" 5 -> 0\n1: native lamp \"amber\" 5 -> 0\n\
    0: sleep 5 tag 0\n1: sleep 5 tag 0\n\
    0: native lamp \"red\" 30 -> 0\n1: native lamp \"red\" 30 -> 0\n\
    0: sleep 30 tag 0\n1: sleep 30 tag 0\n0: done 1\n1: done 1\n";

/// A host with two machines of the file.
fn two_lights(alloc: Global) -> Option<Host>
    ensures { IfSome result (λ host. length host ≡ 2) }
{
    let mut host = Host::new(alloc);
    add(alloc, &mut host, &FILE, SCRIPT)?;
    add(alloc, &mut host, &FILE, SCRIPT)?;
    Some(host)
}

/// Whether two machines, each given one step in turn, print the lines of the example.
fn shine_in_turn(alloc: Global) -> bool {
    let Some(mut host) = two_lights(alloc) else {
        return false;
    };
    let Ok(mut out) = MemorySink::new(alloc, 10_000, &[]) else {
        return false;
    };
    if !start(alloc, &mut host, 0, &mut out) || !start(alloc, &mut host, 1, &mut out) {
        return false;
    }
    for _round in 0..60_000u32 {
        give(&mut host, 0, 1, &mut out);
        give(&mut host, 1, 1, &mut out);
    }
    out.bytes() == LINES.as_bytes()
}

#[test]
fn two_machines_take_steps_in_turn(rt: HostRuntime) {
    assert!(rt; shine_in_turn(rt.alloc()));
}
