use super::stage::{Came, play};
use host_run::SessionEnd;
use pawn_outside::MemorySink;
use std::alloc::Global;

/// Calls `p` with 42 and `q` with nothing, and is done with what `q` answers.
const CODE: [i32; 12] = [39, 42, 39, 4, 123, 0, 39, 0, 123, 1, 120, 0];

/// `p` takes the script's answer, `q` has its own.
const SCRIPT: &str = "{\"natives\": [{\"name\": \"p\", \"forms\": [\"cell\"]}, \
    {\"name\": \"q\", \"result\": -1}], \"answers\": [{\"result\": 9}]}";

const TEXT: &str = "native p 42 -> 9\nnative q -> -1\ndone -1\n";

const LENGTH: u32 = 40;

/// The end of each line in the text, with the steps and PRI behind the step that writes it.
const LINES: [(u32, u64, i32); 3] = [(17, 3, 9), (32, 5, -1), (LENGTH, 6, -1)];

/// What a session comes to whose sink has room for so many bytes.
fn wanted(room: u32) -> Came {
    let end = SessionEnd::SinkFault;
    for (behind, steps, pri) in LINES {
        if room < behind {
            return Came {
                steps,
                end,
                position: 1,
                pri,
            };
        }
    }
    Came {
        steps: 6,
        end: SessionEnd::Done(-1),
        position: 1,
        pri: -1,
    }
}

/// Whether so much of the text is whole lines.
fn has_lines(taken: usize, room: u32) -> bool {
    LINES
        .iter()
        .all(|line| line.0 > room || line.0 as usize <= taken)
}

/// Whether a session over a sink with this room comes to what it has to, and has written a front of
/// the text, with all lines that fit.
fn stops_right(alloc: Global, room: u32) -> bool {
    let Ok(mut out) = MemorySink::new(alloc, room, &[]) else {
        return false;
    };
    let Some(came) = play(alloc, &CODE, SCRIPT, 9, &mut out) else {
        return false;
    };
    let taken = out.bytes();
    came == wanted(room) && TEXT.as_bytes().starts_with(taken) && has_lines(taken.len(), room)
}

#[test]
fn a_sink_of_each_room(rt: HostRuntime) {
    for room in 0..LENGTH + 1 {
        assert!(rt; stops_right(rt.alloc(), room), "room {room}");
    }
}
