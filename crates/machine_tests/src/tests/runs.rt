use super::stage::comes_to;
use host_run::SessionEnd;

/// Code, a bound, the text, and the steps and the end.
const ROWS: [(&[i32], u64, &str, u64, SessionEnd); 12] = [
    (&[11, 42, 120, 0], 9, "done 42\n", 2, SessionEnd::Done(42)),
    (
        &[11, 5, 12, 3, 120, 1],
        9,
        "exit 5 tag 3\n",
        3,
        SessionEnd::Exit { value: 5, tag: 3 },
    ),
    (&[120, 7], 9, "error 7\n", 1, SessionEnd::Error(7)),
    (&[120, -5], 9, "error -5\n", 1, SessionEnd::Error(-5)),
    (
        &[11, 30, 12, 2, 120, 12],
        9,
        "sleep 30 tag 2\n",
        3,
        SessionEnd::Asleep { value: 30, tag: 2 },
    ),
    // An access to dead memory, and an instruction that isn't one.
    (
        &[11, 40, 9, 120, 0],
        9,
        "error 5\n",
        2,
        SessionEnd::Error(5),
    ),
    (&[130, 0, 0], 9, "error 6\n", 1, SessionEnd::Error(6)),
    // A native without arguments, and one whose arguments pass the top.
    (
        &[123, 1, 120, 0],
        9,
        "native q -> 0\ndone 0\n",
        2,
        SessionEnd::Done(0),
    ),
    (
        &[39, 400, 123, 1, 120, 0],
        9,
        "error 10\n",
        2,
        SessionEnd::Error(10),
    ),
    // A bound that is used up, also right at an end.
    (&[11, 42, 120, 0], 0, "", 0, SessionEnd::Steps),
    (&[11, 42, 120, 0], 1, "", 1, SessionEnd::Steps),
    (&[11, 42, 120, 0], 2, "done 42\n", 2, SessionEnd::Done(42)),
];

#[test]
fn sessions_by_their_ends(rt: HostRuntime) {
    for (code, bound, text, steps, end) in ROWS {
        let wanted = (steps, end, 0);
        assert!(rt;
            comes_to(rt.alloc(), code, "{\"others\": true}", bound, text, wanted),
            "{text}"
        );
    }
}
