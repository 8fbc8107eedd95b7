use super::judged_types::{Faulty, Standing, breaks, warns};

/// Arguments that don't fit.
const ARGUMENTS: [Faulty; 18] = [
    ("f(x[5]) { }\nmain() { new a[9]; f(a[4]); }", &[(55, 2)]),
    ("f(x[][3]) { }\nmain() { new a[3]; f(a[0]); }", &[(55, 2)]),
    ("f(x[]) { }\nmain() { new a[2][3]; f(a); }", &[(55, 2)]),
    ("f(x[3]) { }\nmain() { new a[2]; f(a); }", &[(55, 2)]),
    ("f(x) { }\nmain() { new a[2]; f(a); }", &[(58, 2)]),
    ("f(x) { }\nmain() f(\"a\");", &[(58, 2)]),
    ("f(&x) { }\nmain() { new a[2]; f(a); }", &[(58, 2)]),
    ("f(&x) { }\nmain() {\n  f(\n  1 + 2);\n}", &[(58, 3)]),
    ("f(const &x) return x;\nmain() f(1);", &[(58, 2)]),
    (
        "f(&x) x = 1;\nmain() { new const c = 1; f(c); }",
        &[(58, 2)],
    ),
    ("f(x[]) { }\nmain() { new const c[2]; f(c); }", &[(58, 2)]),
    ("f(x[]) { }\nmain() { f(1); }", &[(58, 2)]),
    ("native p(...);\nmain() p(_);", &[(59, 2)]),
    ("f(x) { }\nmain() {\n  f();\n}", &[(59, 3)]),
    ("f(x) { }\nmain() f(_);", &[(59, 2)]),
    ("f(a, b = 2) return b;\nmain() f(1, _, .b = 3);", &[(60, 2)]),
    ("f(a) { }\nmain() f(1, .a = 3);", &[(60, 2)]),
    ("f() { }\nmain() f(1);", &[(61, 2)]),
];

/// Heads that break a rule, or that differ.
const HEADS: [Faulty; 11] = [
    ("f(a[] = 1) { }\nmain() { }", &[(57, 1)]),
    ("f(&a[]) { }\nmain() { }", &[(58, 1)]),
    ("f(x[][]) { }\nmain() { }", &[(57, 1)]),
    ("f(x[0]) { }\nmain() { }", &[(68, 1)]),
    ("forward f(a);\nf(b) { }\nmain() { }", &[(65, 1), (65, 2)]),
    (
        "forward f(a);\nf(a, b) { }\nmain() { }",
        &[(65, 1), (65, 2)],
    ),
    (
        "forward f(a = 1);\nf(a = 2) { }\nmain() { }",
        &[(65, 1), (65, 2)],
    ),
    ("main(a) { }", &[(65, 1)]),
    ("f(a) <s> { }\nf(b) <t> { }\nmain() { }", &[(65, 2)]),
    (
        "f() {\n  if (1) return;\n  return 1;\n}\nmain() f();",
        &[(64, 2), (64, 3)],
    ),
    (
        "f() <s> return 1;\nf() <t> return;\nmain() f();",
        &[(64, 1), (64, 2)],
    ),
];

/// Calls that stand.
const CALLED: [Standing; 13] = [
    (
        "f(x[]) return x[0];\nnew m[2][3];\nmain() return f(m[1][1]);",
        &[],
    ),
    (
        "f(x[3]) return x[0];\nnew m[2][3];\nmain() return f(m[1]);",
        &[],
    ),
    (
        "f(const &x) return x;\nmain() { new const c = 1; f(c); }",
        &[],
    ),
    (
        "native p(...);\nmain() { new const a[2] = {1, 2}; p(a, 1, \"x\", a[0]); }",
        &[],
    ),
    (
        "f(a[], n = sizeof a + 1) return n;\nmain() { new b[2]; return f(b); }",
        &[],
    ),
    (
        "f(a[], n = sizeof a) return n;\nmain() { new b[2]; return f(b) + f(.n = 3, .a = b); }",
        &[],
    ),
    ("forward f(a);\nf(a) { }\nmain() { }", &[]),
    ("forward f(a = 1 + 1);\nf(a = 2) { }\nmain() { }", &[]),
    (
        "f(a, b = 2, c = 3) return a + b + c;\nmain() return f(1, _, 4) + f(1, .c = 5);",
        &[],
    ),
    ("f(x) { }\nmain() { f 1; }", &[]),
    ("f(const x[]) return x[0];\nmain() f(\"ab\");", &[]),
    ("f(&x = 3) return x;\nmain() f();", &[]),
    ("f(a) { if (a) return 1; }\nmain() f(1);", &[]),
];

#[test]
fn arguments(rt: HostRuntime) {
    for (source, faults) in ARGUMENTS {
        assert!(rt; breaks(rt.alloc(), source, faults), "{source}");
    }
}

#[test]
fn heads(rt: HostRuntime) {
    for (source, faults) in HEADS {
        assert!(rt; breaks(rt.alloc(), source, faults), "{source}");
    }
}

#[test]
fn called(rt: HostRuntime) {
    for (source, lines) in CALLED {
        assert!(rt; warns(rt.alloc(), source, lines), "{source}");
    }
}
