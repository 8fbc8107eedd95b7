use super::judged_types::{Faulty, Standing, breaks, warns};

/// Names that mean nothing where they stand, or nothing that serves there.
const UNKNOWN: [Faulty; 15] = [
    ("f() { }\nmain() { f; }", &[(50, 2)]),
    ("f() { }\nmain() { new x; x = f; }", &[(50, 2)]),
    ("f() { }\nmain() return f + 1;", &[(50, 2)]),
    ("native f();\nmain() { f -1; }", &[(50, 2)]),
    ("main() { new x; x(1); }", &[(50, 1)]),
    ("f(x) x(1);\nmain() f(1);", &[(50, 1)]),
    ("const c = 1;\nmain() c(1);", &[(50, 2)]),
    ("f(a = 0) return a;\nmain() f(.zz = 1);", &[(50, 2)]),
    ("forward f();\nmain() f();", &[(50, 2)]),
    ("enum T { a, b = T };\nmain() { }", &[(50, 1)]),
    ("f(n = sizeof a, a[]) return n;\nmain() { }", &[(50, 1)]),
    ("entry() <s> { }\nmain() entry();", &[(50, 2)]),
    ("main() {\n  return (0 +\n  sizeof\n  q);\n}", &[(50, 3)]),
    ("f(x[0]) { }\nmain() f(zz);", &[(68, 1), (50, 2)]),
    ("main() { return zz + 1; }", &[(50, 1)]),
];

/// Names that stand twice.
const TWICE: [Faulty; 8] = [
    (
        "F:operator+(F:a, F:b) return a;\nF:operator+(F:a, F:b) return b;\nmain() { }",
        &[(51, 2)],
    ),
    ("main() {\n  new a,\n    a;\n}", &[(51, 2)]),
    ("const true = 5;\nmain() { }", &[(51, 1)]),
    ("f() { }\nf() { }\nmain() { }", &[(51, 2)]),
    (
        "native entry();\nentry() <s> { }\nmain() { }",
        &[(51, 1), (51, 2)],
    ),
    ("new f;\nf() { }\nmain() { }", &[(51, 1), (51, 2)]),
    ("f(a, a) { }\nmain() { }", &[(51, 1)]),
    ("main() { const c = 1; const c = 2; }", &[(51, 1)]),
];

/// Names that mean what is declared.
const NAMED: [Standing; 12] = [
    ("forward f();\nmain() { }", &[]),
    ("forward f();\nforward f();\nf() { }\nmain() { }", &[]),
    ("forward public f();\nf() { }", &[]),
    ("@f() { }", &[]),
    ("public f() { }", &[]),
    ("main() { new a = 1, b = a; return b; }", &[]),
    ("enum { a, b = a + 1 };\nmain() return b;", &[]),
    ("main() { new true; return true; }", &[]),
    (
        "main() { for (new i = 0; i < 2; i++) { new i; i = 1; } }",
        &[],
    ),
    ("new a;\nf(n = sizeof a, a[]) return n;\nmain() { }", &[]),
    (
        "const c = 2;\nf(x) { new y[c]; y[0] = x; { new c; c = x; } return c; }\nmain() f(1);",
        &[],
    ),
    ("main() { f(1); }\nf(x) return x;", &[]),
];

/// Values that have to be constant, and divisors that are zero.
const CONSTANTS: [Faulty; 11] = [
    (
        "const c = 1;\nf(c, d = c) return d;\nmain() { }",
        &[(57, 2)],
    ),
    (
        "main() { new const c = 3; new a[c]; a[0] = 1; }",
        &[(57, 1)],
    ),
    ("new n;\nnew a[2] = {n};\nmain() { }", &[(57, 2)]),
    ("f() return 1;\nnew a = f();\nmain() { }", &[(57, 2)]),
    ("main() { static s = 1; static t = s; }", &[(57, 1)]),
    ("main() return 0 && 1 / 0;", &[(67, 1)]),
    ("main() { new x = 1; x /= 0; }", &[(67, 1)]),
    ("main() { new x = 1; x %= 0; }", &[(67, 1)]),
    ("main() {\n  new x;\n  x = (0 +\n    4 / 0);\n}", &[(67, 4)]),
    (
        "main() {\n  new x;\n  switch (1) {\n    case 0: ;\n    case x: ;\n  }\n}",
        &[(57, 3)],
    ),
    ("f(x = n, n) return x;\nmain() { }", &[(50, 1), (57, 1)]),
];

#[test]
fn unknown(rt: HostRuntime) {
    for (source, faults) in UNKNOWN {
        assert!(rt; breaks(rt.alloc(), source, faults), "{source}");
    }
}

#[test]
fn twice(rt: HostRuntime) {
    for (source, faults) in TWICE {
        assert!(rt; breaks(rt.alloc(), source, faults), "{source}");
    }
}

#[test]
fn named(rt: HostRuntime) {
    for (source, lines) in NAMED {
        assert!(rt; warns(rt.alloc(), source, lines), "{source}");
    }
}

#[test]
fn constants(rt: HostRuntime) {
    for (source, faults) in CONSTANTS {
        assert!(rt; breaks(rt.alloc(), source, faults), "{source}");
    }
}
