use super::judged_types::{Faulty, Standing, breaks, warns};

/// States and automata that aren't known, or that are named twice.
const STATES: [Faulty; 13] = [
    ("main() { state s; }", &[(41, 1)]),
    ("main() { state q:a; }", &[(40, 1)]),
    ("f() <a:s> { }\nmain() { state a:t; }", &[(41, 2)]),
    ("f() <a:s> { }\nmain() { state s; }", &[(41, 2)]),
    ("f() <a:s, b:t> { }\nmain() { }", &[(44, 1)]),
    ("f() <a, a> { }\nmain() { }", &[(42, 1)]),
    ("f() <a> { }\nf() <a> { }\nmain() { }", &[(42, 2)]),
    ("f() <> { }\nf() <> { }\nmain() { }", &[(43, 2)]),
    ("f() <a:s> { }\nf() <b:t> { }\nmain() { }", &[(44, 2)]),
    ("f() { }\nf() <s> { }\nmain() { }", &[(44, 1)]),
    ("entry() { }\nmain() { }", &[(44, 1)]),
    ("entry(x) <s> { }\nmain() { }", &[(65, 1)]),
    (
        "entry() <a:s> { }\nF:entry() <b:t> return F:1;\nconst c = 1 / tagof entry;\nmain() { }",
        &[(67, 3)],
    ),
];

/// Automata that stand.
const SWITCHED: [Standing; 6] = [
    ("entry() <s> { }\nmain() { state s; }", &[]),
    ("main() <a> { }", &[]),
    (
        "f() <a:s, t> { }\nf() <> { }\nmain() { state a:t; state (1) a:s; f(); }",
        &[],
    ),
    (
        "entry() <a:s> { }\nentry() <b:s> { }\nmain() { state a:s; state b:s; }",
        &[],
    ),
    (
        "F:entry() <b:t> return F:1;\nentry() <a:s> { }\nconst c = 1 / tagof entry;\nmain() { }",
        &[],
    ),
    (
        "F:entry() <b:t> return F:1;\nentry() <a:s> { }\nnew x[tagof entry];\nmain() x[1] = 1;",
        &[],
    ),
];

/// Statements out of their place.
const STATEMENTS: [Faulty; 8] = [
    ("main() { break; }", &[(63, 1)]),
    (
        "main() {\n  switch (1) {\n    case 1: continue;\n  }\n}",
        &[(63, 3)],
    ),
    (
        "main() {\n  switch (1) {\n    case 1: ;\n    case 1: ;\n  }\n}",
        &[(62, 2)],
    ),
    (
        "main() {\n  switch (1) {\n    case 5 .. 4: ;\n  }\n}",
        &[(62, 2)],
    ),
    (
        "main() {\n  switch (1) {\n    case 1 .. 4: ;\n    case 0, 4: ;\n  }\n}",
        &[(62, 2)],
    ),
    ("", &[(71, 1)]),
    ("f() { }", &[(71, 1)]),
    ("native main();", &[(71, 1)]),
];

/// Statements in their place.
const STATED: [Standing; 5] = [
    ("main() { while (1) break; }", &[]),
    (
        "main() { switch (1) { case 1 .. 4: ; case 5: ; default: ; } }",
        &[],
    ),
    ("main() { do { continue; } while (0); }", &[]),
    ("main() { for (;;) { if (1) break; else continue; } }", &[]),
    ("main() { exit 5; sleep 1; assert 1; return 2; }", &[]),
];

#[test]
fn states(rt: HostRuntime) {
    for (source, faults) in STATES {
        assert!(rt; breaks(rt.alloc(), source, faults), "{source}");
    }
}

#[test]
fn switched(rt: HostRuntime) {
    for (source, lines) in SWITCHED {
        assert!(rt; warns(rt.alloc(), source, lines), "{source}");
    }
}

#[test]
fn statements(rt: HostRuntime) {
    for (source, faults) in STATEMENTS {
        assert!(rt; breaks(rt.alloc(), source, faults), "{source}");
    }
}

#[test]
fn stated(rt: HostRuntime) {
    for (source, lines) in STATED {
        assert!(rt; warns(rt.alloc(), source, lines), "{source}");
    }
}
