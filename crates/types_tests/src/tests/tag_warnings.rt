use super::judged_types::{Faulty, Standing, breaks, warns};

/// Operators that can't be defined.
const OPERATORS: [Faulty; 6] = [
    (
        "native operator+(Fixed:a, Fixed:b);\nmain() { }",
        &[(66, 1)],
    ),
    ("operator+(a, b) return 1;\nmain() { }", &[(66, 1)]),
    (
        "Fixed:operator+(Fixed:a = 1, Fixed:b) return a;\nmain() { }",
        &[(66, 1)],
    ),
    (
        "Fixed:operator+(&Fixed:a, Fixed:b) return a;\nmain() { }",
        &[(66, 1)],
    ),
    (
        "Fixed:operator+(Fixed:a[], Fixed:b) return b;\nmain() { }",
        &[(66, 1)],
    ),
    ("Fixed:operator*(Fixed:a) return a;\nmain() { }", &[(66, 1)]),
];

/// Tags: the lines of what is warned of.
const MATCHED: [Standing; 23] = [
    ("main() {\n  new T:x = 1;\n}", &[2]),
    ("main() {\n  new T:x = (0 +\n 1);\n}", &[2]),
    ("main() {\n  new T:x;\n  x = (\n  1);\n}", &[3]),
    ("new Fixed:a[2] = {1,\n 2};\nmain() { }", &[1, 2]),
    ("f(Fixed:x = 1) return _:x;\nmain() f();", &[1]),
    (
        "forward f(Fixed:x = 1);\nf(Fixed:x = 1) return _:x;\nmain() f();",
        &[1, 2],
    ),
    (
        "Fixed:operator=(x) return Fixed:x;\nf(Fixed:x = 1) return _:x;\nmain() f();",
        &[],
    ),
    ("main() {\n  new Fixed:f, x;\n  x = x << f;\n}", &[3]),
    ("main() { new fixed:f, x; x = x + f; }", &[]),
    ("main() {\n  new fixed:f, x;\n  f = x;\n}", &[3]),
    ("enum Fx { a, b = 5 };\nmain() return _:b;", &[]),
    ("const Fixed:c = 1;\nmain() return _:c;", &[1]),
    ("bool:operator+(bool:a, bool:b) return a;\nmain() { }", &[]),
    ("main() {\n  new Fixed:x, y;\n  x += y;\n}", &[3]),
    ("Fixed:f() return 1;\nmain() f();", &[1]),
    (
        "main() {\n  new Fixed:x;\n  switch (x) {\n    case 1: ;\n  }\n}",
        &[4],
    ),
    ("main() {\n  new bool:b = 1;\n  return b == 1;\n}", &[2]),
    (
        "Fixed:operator+(Fixed:a, Fixed:b) return a;\nmain() { new Fixed:x; x = x + x; x += x; }",
        &[],
    ),
    (
        "Fixed:operator+(Fixed:a, b) return a;\nmain() { new Fixed:x; x = 1 + x; x = x + 1; }",
        &[],
    ),
    (
        "F:operator-(F:a, b) return a;\nmain() {\n  new F:x, y;\n  x = x - 1;\n  y = _:(1 - x);\n}",
        &[5],
    ),
    ("public Fixed:operator+(Fixed:a, Fixed:b) return a;", &[]),
    ("f(Fixed:a) { }\nmain() {\n  f(1);\n  f(Fixed:1);\n}", &[3]),
    ("f({Fixed, _}:a) { }\nmain() { f(1); f(Fixed:1); }", &[]),
];

#[test]
fn operators(rt: HostRuntime) {
    for (source, faults) in OPERATORS {
        assert!(rt; breaks(rt.alloc(), source, faults), "{source}");
    }
}

#[test]
fn matched(rt: HostRuntime) {
    for (source, lines) in MATCHED {
        assert!(rt; warns(rt.alloc(), source, lines), "{source}");
    }
}
