use super::stage::verified;
use host_run::{BindFault, Bound, bind};
use script_reader::read_script;
use std::alloc::Global;

/// The number of the native that isn't served, -1 where all are bound, or -2 for want of memory.
fn told(answer: Result<Bound, BindFault>) -> i64 {
    match answer {
        Ok(_bound) => -1,
        Err(BindFault::Unregistered(number)) => i64::from(number),
        Err(BindFault::Memory) => -2,
    }
}

/// That number for natives of these names; none where something else is wrong.
fn unserved(alloc: Global, names: (&str, &str), script: &str) -> Option<i64> {
    let verified = verified(alloc, &[120, 0], names)?;
    let script = read_script(alloc, script.as_bytes()).ok()?;
    Some(told(bind(alloc, &verified, &script)))
}

/// Names of natives, a script, and what is to come out.
const ROWS: [((&str, &str), &str, i64); 7] = [
    (("p", "w"), "{}", 0),
    (("p", "w"), "{\"others\": true}", -1),
    (("p", "w"), "{\"natives\": [{\"name\": \"p\"}]}", 1),
    (("p", "w"), "{\"natives\": [{\"name\": \"w\"}]}", 0),
    (
        ("p", "w"),
        "{\"natives\": [{\"name\": \"w\"}, {\"name\": \"q\"}, {\"name\": \"p\"}]}",
        -1,
    ),
    (
        ("p", "w"),
        "{\"others\": true, \"natives\": [{\"name\": \"w\"}]}",
        -1,
    ),
    (("p", "p"), "{\"natives\": [{\"name\": \"p\"}]}", -1),
];

#[test]
fn natives_that_are_served(rt: HostRuntime) {
    for (names, script, wanted) in ROWS {
        assert!(rt;
            unserved(rt.alloc(), names, script) == Some(wanted),
            "{script}"
        );
    }
}
