use super::judged_types::{Faulty, Standing, breaks, warns};

/// Cells where arrays are wanted, and arrays where cells are.
const FORMS: [Faulty; 20] = [
    ("main() { new x; \"abc\" = x; }", &[(52, 1)]),
    ("main() 1 = 2;", &[(52, 1)]),
    ("const c = 1;\nmain() {\n  c = 2;\n}", &[(52, 3)]),
    ("const c = 1;\nmain() {\n  ++c;\n}", &[(52, 3)]),
    ("main() { new const c = 1; c = 2; }", &[(52, 1)]),
    ("f() { }\nmain() return sizeof f;", &[(53, 2)]),
    ("main() { new a[3]; return sizeof a[]; }", &[(53, 1)]),
    ("main() { new x; return sizeof x[]; }", &[(53, 1)]),
    ("main() { new x = {1}; }", &[(53, 1)]),
    ("main() { new x; return x[0]; }", &[(53, 1)]),
    ("main() { new a[2][2]; return a{0}; }", &[(54, 1)]),
    ("main() { new a[2]; a = 5; }", &[(54, 1)]),
    ("main() { new a[2]; return a + 1; }", &[(54, 1)]),
    ("main() { new x = \"ab\"; }", &[(54, 1)]),
    ("new x = \"ab\";\nmain() { }", &[(54, 1)]),
    ("main() { static x = \"ab\"; }", &[(54, 1)]),
    ("main() { new a[2]; a; }", &[(54, 1)]),
    ("main() \"text\";", &[(54, 1)]),
    ("main() { new a[2], b[2]; 1 ? a : b; }", &[(54, 1)]),
    ("main() { new a[2], b[2], c[2]; a = b = c; }", &[(54, 1)]),
];

/// Sizes that are no sizes, or that differ.
const SIZES: [Faulty; 21] = [
    ("main() { new a[2] = 5; }", &[(55, 1)]),
    ("new a[2] = {{1}, 2};\nmain() { }", &[(55, 1)]),
    ("new a[2][2] = {1, 2};\nmain() { }", &[(55, 1)]),
    ("new a[2][2] = \"ab\";\nmain() { }", &[(55, 1)]),
    ("new a[2][2] = {{1}, 5};\nmain() { }", &[(55, 1)]),
    ("new a[2][2] = {{1}, ...};\nmain() { }", &[(55, 1)]),
    ("new a[2] = {1,\n2,\n3};\nmain() { }", &[(55, 1)]),
    ("new a[2][2] = {\n{1, 2, 3}, {1}};\nmain() { }", &[(55, 1)]),
    ("new a[2] = {\"a\", 1};\nmain() { }", &[(57, 1)]),
    ("new b[2];\nnew a[2] = {b, 1};\nmain() { }", &[(57, 2)]),
    ("new a[] = {1, ...};\nmain() { }", &[(57, 1)]),
    ("new a[2][];\nmain() { }", &[(57, 1)]),
    ("new a[];\nmain() { }", &[(57, 1)]),
    ("new a[0];\nmain() { }", &[(68, 1)]),
    ("new a[0 char];\nmain() { }", &[(68, 1)]),
    ("new a[1048577];\nmain() { }", &[(68, 1)]),
    ("new a[0];\nmain() return a[5];", &[(68, 1)]),
    (
        "f() { }\nmain() {\n  new a[1048576];\n  new b[1];\n}",
        &[(68, 2)],
    ),
    ("main() { new a[3], b[2]; a = b; }", &[(55, 1)]),
    ("f(a[]) { new b[3]; a = b; }\nmain() { }", &[(55, 1)]),
    ("main() { new a[3]; a = \"abcd\"; }", &[(55, 1)]),
];

/// Constant indexes outside.
const OUTSIDE: [Faulty; 7] = [
    ("new a[3];\nmain() {\n  a[3] = 1;\n}", &[(56, 3)]),
    ("new a[3];\nmain() return a[1, 9];", &[(56, 2)]),
    ("new a[3];\nmain() return a[-1];", &[(56, 2)]),
    ("main() { new a[1]; return a{4}; }", &[(56, 1)]),
    ("f(x) { }\nnew a[3];\nmain() f(a[9]);", &[(56, 3)]),
    ("f(a[3]) return a[3];\nmain() { }", &[(56, 1)]),
    ("new a[2][5 char];\nmain() return a[1][2];", &[(56, 2)]),
];

/// Arrays and texts that stand.
const HELD: [Standing; 20] = [
    ("main() { new a[1]; return a{3}; }", &[]),
    ("main() { new a[2], b[2]; (a)[1] = 1; (a) = (b); }", &[]),
    ("f(&x) x = 1;\nmain() { new y; f((y)); (y) = 2; }", &[]),
    ("new a[3];\nmain() { new x; return a[0 && x]; }", &[]),
    ("new a[3];\nmain() return a[1 ? 2 : 9];", &[]),
    ("f(a[]) return a[-1];\nmain() { }", &[]),
    ("main() { return \"abc\"[1]; }", &[]),
    ("main() { \"abc\"[0] = 1; }", &[]),
    ("r(&x) x = 1;\nmain() r(\"abc\"[0]);", &[]),
    ("main() { new a[sizeof true]; a[0] = 1; }", &[]),
    ("f(a[3]) { new b[3]; a = b; }\nmain() { }", &[]),
    ("f(m[][3]) { new b[3]; m[0] = b; }\nmain() { }", &[]),
    ("main() { new a[3]; a = \"ab\"; a = \"a\"; }", &[]),
    ("new a[3] = {1, ...};\nmain() { }", &[]),
    ("new a[1] = {1, ...};\nmain() { }", &[]),
    (
        "new a[2][5 char] = {\"a\", {1, 2}};\nmain() return a[1][1];",
        &[],
    ),
    ("new a[2][3] = {\"ab\", \"c\"};\nmain() { }", &[]),
    ("new a[] = \"abc\";\nmain() return a[3];", &[]),
    ("main() return sizeof \"abc\";", &[]),
    ("new a[2][3][4];\nmain() return a[1][2][3];", &[]),
];

#[test]
fn forms(rt: HostRuntime) {
    for (source, faults) in FORMS {
        assert!(rt; breaks(rt.alloc(), source, faults), "{source}");
    }
}

#[test]
fn sizes(rt: HostRuntime) {
    for (source, faults) in SIZES {
        assert!(rt; breaks(rt.alloc(), source, faults), "{source}");
    }
}

#[test]
fn outside(rt: HostRuntime) {
    for (source, faults) in OUTSIDE {
        assert!(rt; breaks(rt.alloc(), source, faults), "{source}");
    }
}

#[test]
fn held(rt: HostRuntime) {
    for (source, lines) in HELD {
        assert!(rt; warns(rt.alloc(), source, lines), "{source}");
    }
}
