use super::stage::comes_to;
use host_run::SessionEnd;
use std::alloc::{AllocError, Global};

/// Whether a call of `p` with one argument of a form, where the script has these answers, writes
/// this text and comes to this. The first cell of the data is loaded then, and the run is done with
/// it.
fn answers(
    alloc: Global,
    call: (i32, &str, &str),
    text: &str,
    wanted: (u64, SessionEnd, u32),
) -> bool {
    let (argument, form, answers) = call;
    let code = [39, argument, 39, 4, 123, 0, 1, 0, 120, 0];
    let Ok(script) = format!(in alloc;
        "{{\"others\": true, \"answers\": [{answers}], \
         \"natives\": [{{\"name\": \"p\", \"forms\": [\"{form}\"]}}]}}"
    ) else {
        return false;
    };
    comes_to(alloc, &code, script.as_str(), 9, text, wanted)
}

/// An argument with its form and the script's answers, the text, the steps, the end, and how many
/// answers were taken.
const CALLS: [((i32, &str, &str), &str, (u64, SessionEnd, u32)); 21] = [
    (
        (42, "cell", "{\"result\": 5}"),
        "native p 42 -> 5\ndone 7\n",
        (5, SessionEnd::Done(7), 1),
    ),
    // Behind the last answer.
    (
        (42, "cell", ""),
        "native p 42 -> 0\ndone 7\n",
        (5, SessionEnd::Done(7), 0),
    ),
    // An answer that is an error has taken its position.
    (
        (42, "cell", "{\"error\": 3}"),
        "error 3\n",
        (3, SessionEnd::Error(3), 1),
    ),
    // So has one with a forbidden write: to a value, to an argument that isn't there, to a text, or
    // of more cells than there are.
    (
        (42, "cell", "{\"writes\": [{\"arg\": 0, \"cells\": [1]}]}"),
        "error 10\n",
        (3, SessionEnd::Error(10), 1),
    ),
    (
        (42, "cell", "{\"writes\": [{\"arg\": 0, \"cells\": []}]}"),
        "error 10\n",
        (3, SessionEnd::Error(10), 1),
    ),
    (
        (0, "ref", "{\"writes\": [{\"arg\": 1, \"cells\": []}]}"),
        "error 10\n",
        (3, SessionEnd::Error(10), 1),
    ),
    (
        (4, "text", "{\"writes\": [{\"arg\": 0, \"cells\": []}]}"),
        "error 10\n",
        (3, SessionEnd::Error(10), 1),
    ),
    (
        (0, "ref", "{\"writes\": [{\"arg\": 0, \"cells\": [1, 2]}]}"),
        "error 10\n",
        (3, SessionEnd::Error(10), 1),
    ),
    (
        (
            0,
            "cells:2",
            "{\"writes\": [{\"arg\": 0, \"cells\": [1, 2, 3]}]}",
        ),
        "error 10\n",
        (3, SessionEnd::Error(10), 1),
    ),
    // No test is passed over for an earlier write that is allowed, and none of them is done.
    (
        (
            0,
            "ref",
            "{\"writes\": [{\"arg\": 0, \"cells\": [1]}, {\"arg\": 0, \"cells\": [1, 2]}]}",
        ),
        "error 10\n",
        (3, SessionEnd::Error(10), 1),
    ),
    // Writes that are allowed.
    (
        (0, "ref", "{\"writes\": [{\"arg\": 0, \"cells\": []}]}"),
        "native p &7 -> 0\ndone 7\n",
        (5, SessionEnd::Done(7), 1),
    ),
    (
        (
            0,
            "ref",
            "{\"result\": 2, \"writes\": [{\"arg\": 0, \"cells\": [98]}, \
             {\"arg\": 0, \"cells\": [99]}]}",
        ),
        "native p &7 -> 2\ndone 99\n",
        (5, SessionEnd::Done(99), 1),
    ),
    (
        (
            0,
            "cells:2",
            "{\"writes\": [{\"arg\": 0, \"cells\": [8, 9]}]}",
        ),
        "native p [7 65] -> 0\ndone 8\n",
        (5, SessionEnd::Done(8), 1),
    ),
    // Texts: a character with a sign, an end within a cell, and a first byte of 0.
    (
        (4, "text", ""),
        "native p \"A\\-5;\" -> 0\ndone 7\n",
        (5, SessionEnd::Done(7), 0),
    ),
    (
        (16, "text", ""),
        "native p \"Hi\" -> 0\ndone 7\n",
        (5, SessionEnd::Done(7), 0),
    ),
    (
        (20, "text", ""),
        "native p \"\\4276803;\" -> 0\ndone 7\n",
        (5, SessionEnd::Done(7), 0),
    ),
    // What isn't seen goes before a script's error: a text without an end, more cells than are
    // live, no multiple of 4, and dead memory.
    (
        (28, "text", "{\"error\": 3}"),
        "error 10\n",
        (3, SessionEnd::Error(10), 0),
    ),
    (
        (0, "cells:9", "{\"error\": 3}"),
        "error 10\n",
        (3, SessionEnd::Error(10), 0),
    ),
    (
        (2, "ref", "{\"error\": 3}"),
        "error 10\n",
        (3, SessionEnd::Error(10), 0),
    ),
    (
        (40, "ref", "{\"error\": 3}"),
        "error 10\n",
        (3, SessionEnd::Error(10), 0),
    ),
    (
        (-4, "ref", "{\"error\": 3}"),
        "error 10\n",
        (3, SessionEnd::Error(10), 0),
    ),
];

#[test]
fn calls_with_one_argument(rt: HostRuntime) {
    for (call, text, wanted) in CALLS {
        assert!(rt; answers(rt.alloc(), call, text, wanted), "{text}");
    }
}

/// Code, a script, the text, the steps, the end, and how many answers were taken.
const ROWS: [(&[i32], &str, &str, (u64, SessionEnd, u32)); 6] = [
    // A native that isn't listed takes no answer, and neither does one with its own.
    (
        &[39, 42, 39, 4, 123, 0, 120, 0],
        "{\"others\": true, \"answers\": [{\"result\": 5}]}",
        "native p 42 -> 0\ndone 0\n",
        (4, SessionEnd::Done(0), 0),
    ),
    (
        &[39, 42, 39, 4, 123, 0, 120, 0],
        "{\"others\": true, \"answers\": [{\"result\": 5}], \
         \"natives\": [{\"name\": \"p\", \"forms\": [\"cell\"], \"result\": 9}]}",
        "native p 42 -> 9\ndone 9\n",
        (4, SessionEnd::Done(9), 0),
    ),
    // Another number of arguments, and a count that is no multiple of 4, go before the answer.
    (
        &[39, 42, 39, 4, 123, 0, 120, 0],
        "{\"others\": true, \"answers\": [{\"error\": 3}], \
         \"natives\": [{\"name\": \"p\", \"forms\": [\"cell\", \"cell\"]}]}",
        "error 10\n",
        (3, SessionEnd::Error(10), 0),
    ),
    (
        &[39, 42, 39, 3, 123, 0, 120, 0],
        "{\"others\": true, \"answers\": [{\"error\": 3}]}",
        "error 10\n",
        (3, SessionEnd::Error(10), 0),
    ),
    // Arguments of the form of the rest.
    (
        &[39, 0, 39, 42, 39, 8, 123, 0, 120, 0],
        "{\"others\": true, \
         \"natives\": [{\"name\": \"p\", \"forms\": [\"cell\"], \"rest\": \"ref\"}]}",
        "native p 42 &7 -> 0\ndone 0\n",
        (5, SessionEnd::Done(0), 0),
    ),
    // The first write changes the second argument, the third cell below the top, whose address was
    // read before.
    (
        &[39, 0, 39, 276, 39, 8, 123, 0, 1, 0, 120, 0],
        "{\"others\": true, \"natives\": [{\"name\": \"p\", \"forms\": [\"ref\", \"ref\"]}], \
         \"answers\": [{\"writes\": [{\"arg\": 0, \"cells\": [4]}, \
         {\"arg\": 1, \"cells\": [55]}]}]}",
        "native p &0 &7 -> 0\ndone 55\n",
        (6, SessionEnd::Done(55), 1),
    ),
];

#[test]
fn calls_by_whole_scripts(rt: HostRuntime) {
    for (code, script, text, wanted) in ROWS {
        assert!(rt;
            comes_to(rt.alloc(), code, script, 9, text, wanted),
            "{text}"
        );
    }
}

/// A script whose answer writes into the second argument so many times, and then to where that
/// argument led before.
fn many_writes(alloc: Global, count: usize) -> Result<String, AllocError> {
    let mut script = String::from_str(
        alloc,
        "{\"others\": true, \"natives\": [{\"name\": \"p\", \"forms\": [\"ref\", \"ref\"]}], \
         \"answers\": [{\"writes\": [",
    )?;
    for _ in 0..count {
        script.push_str("{\"arg\":0,\"cells\":[4]},")?;
    }
    script.push_str("{\"arg\": 1, \"cells\": [55]}]}]}")?;
    Ok(script)
}

fn many_writes_hold(alloc: Global, count: usize) -> bool {
    let Ok(script) = many_writes(alloc, count) else {
        return false;
    };
    let code = [39, 0, 39, 276, 39, 8, 123, 0, 1, 0, 120, 0];
    let wanted = (6, SessionEnd::Done(55), 1);
    let text = "native p &0 &7 -> 0\ndone 55\n";
    comes_to(alloc, &code, script.as_str(), 9, text, wanted)
}

#[test]
fn many_writes_into_the_arguments(rt: HostRuntime) {
    assert!(rt; many_writes_hold(rt.alloc(), 100_000));
}
