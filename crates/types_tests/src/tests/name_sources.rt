use super::judged_names::{breaks, resolves};

/// A source, its pairs of tokens, and the tokens of its constants with their values, counted and
/// worked out by hand.
type Row = (&'static str, &'static [(u32, u32)], &'static [(u32, i32)]);

/// What occurrences mean.
const MEANINGS: [Row; 33] = [
    ("main() { }", &[], &[]),
    ("new a = 1, b = a", &[(7, 1)], &[]),
    ("new a; main() { new a = a; a; }", &[(10, 1), (12, 8)], &[]),
    ("f(a) { { new a; a; } a; }", &[(9, 7), (12, 2)], &[]),
    ("new a; f(a) { a; } main() a;", &[(8, 5), (14, 1)], &[]),
    ("f(a) { new a; a; }", &[(8, 6)], &[]),
    ("main() { new a = 1, b = a; }", &[(11, 5)], &[]),
    (
        "main() for (new i = 0; i < 9; i++) { new i; i; }",
        &[(10, 6), (14, 6), (21, 19)],
        &[],
    ),
    ("main() f(1); f(n) return n;", &[(3, 8), (13, 10)], &[]),
    ("forward f(n); main() f(1); f(n) { }", &[(9, 1)], &[]),
    ("forward f(); main() { }", &[], &[]),
    ("native p(v); main() p(1);", &[(9, 1)], &[]),
    ("f() <a> { } f() <b> { } main() f();", &[(19, 0)], &[]),
    ("f() { } f() <a> { }", &[], &[]),
    ("entry() <on> { } main() state on;", &[], &[]),
    ("main() { true; new true; true; }", &[(9, 7)], &[]),
    ("f(a[], n = sizeof a) { }", &[(9, 2)], &[]),
    ("const c = 1; f(c, d = c) { }", &[(11, 7)], &[(1, 1)]),
    ("f(a) { } main() f(.a = 1);", &[(9, 0)], &[]),
    (
        "main() { new x; { new y; } { new y; y; } x; }",
        &[(16, 14), (19, 5)],
        &[],
    ),
    ("main() p(1); native p(v);", &[(3, 9)], &[]),
    ("forward f(); forward f(); f() { }", &[], &[]),
    ("native main();", &[], &[]),
    ("new a; f(n = sizeof a, a[]) { }", &[(8, 1)], &[]),
    // Broken rules that are not of names.
    ("new x; main() x = x / 0;", &[(6, 1), (8, 1)], &[]),
    ("new n; new a[n]; main() a;", &[(6, 1), (12, 4)], &[]),
    ("new x; main() x(1);", &[(6, 1)], &[]),
    ("f() { } main() f + 1;", &[(8, 0)], &[]),
    ("new n; f(x = n) { }", &[(7, 1)], &[]),
    ("entry() <on> { } main() entry();", &[(11, 0)], &[]),
    ("f(a) { } main() f(.zz = 1);", &[(9, 0)], &[]),
    ("forward f(a); f(b) { }", &[], &[]),
    ("forward public f(); f() { } main() f();", &[(14, 2)], &[]),
];

/// What constants are worth.
const VALUES: [Row; 21] = [
    ("const c = 3\nnew a[c]", &[(7, 1)], &[(1, 3)]),
    (
        "enum { a, b = 5, c }\nenum T { x, y }",
        &[],
        &[(2, 0), (4, 5), (8, 6), (11, 2), (13, 0), (15, 1)],
    ),
    ("enum { a, b = a + 1 }", &[(6, 2)], &[(2, 0), (4, 1)]),
    (
        "enum { a = cellmax, b }",
        &[],
        &[(2, 2147483647), (6, -2147483648)],
    ),
    ("const c = cellmax + 1", &[], &[(1, -2147483648)]),
    ("const c = -7 / 2", &[], &[(1, -4)]),
    ("const c = 7 % -2", &[], &[(1, -1)]),
    ("const c = 1 << 33", &[], &[(1, 2)]),
    ("const c = 1 < 2 < 2", &[], &[(1, 0)]),
    ("const c = 0 ? 2 : (3, 5)", &[], &[(1, 5)]),
    ("const c = 2 || 0 && 1", &[], &[(1, 1)]),
    ("const c = !5 == false", &[], &[(1, 1)]),
    ("new a[4]; const c = sizeof a", &[(10, 1)], &[(7, 4)]),
    ("new m[2][3]; const c = sizeof m[]", &[(13, 1)], &[(10, 3)]),
    (
        "new s[] = \"ab\"; const c = sizeof s",
        &[(11, 1)],
        &[(8, 3)],
    ),
    ("new s[5 char]; const c = sizeof s", &[(11, 1)], &[(8, 2)]),
    (
        "new s[] = {1, 2}; const c = sizeof s",
        &[(15, 1)],
        &[(12, 2)],
    ),
    ("const c = sizeof \"abcd\"", &[], &[(1, 5)]),
    ("const c = sizeof !\"abcd\"", &[], &[(1, 2)]),
    (
        "const A:c = 1; const d = tagof c + tagof bool:",
        &[(11, 3)],
        &[(3, 1), (8, 3)],
    ),
    (
        "F:operator+(F:a, F:b) return a;\nconst F:c = F:1 + 2",
        &[(14, 7)],
        &[(19, 3)],
    ),
];

/// Sources whose names aren't resolved, with the fault's number and line.
const FAULTS: [(&str, u8, u32); 40] = [
    ("new x; const c = sizeof x + sizeof c", 50, 1),
    ("main() { x = 1; }", 50, 1),
    ("forward f();\nmain() f();", 50, 2),
    ("main() {\nx;\nnew x; }", 50, 2),
    ("main() { new a = a; }", 50, 1),
    ("new a = b, b = 1", 50, 1),
    ("enum T { a, b = T }", 50, 1),
    ("f(n = sizeof a, a[]) { }", 50, 1),
    ("main() { { new a; } a; }", 50, 1),
    ("main() { for (new i = 0; i < 1; i++) ; i; }", 50, 1),
    ("f(a) { }\ng() a;", 50, 2),
    ("main() tagof\nx", 50, 1),
    ("new a,\na;", 51, 1),
    ("main() { new a; new a; }", 51, 1),
    ("main() { new a;\nconst a = 1; }", 51, 2),
    ("f(a, a) { }", 51, 1),
    ("const true = 5;", 51, 1),
    ("new f;\nf() { }", 51, 2),
    ("f() { }\nf() { }", 51, 2),
    ("native f();\nf() { }", 51, 2),
    ("native entry();\nentry() <on> { }", 51, 2),
    ("new entry;\nentry() <on> { }", 51, 2),
    ("forward f();\nnew f;", 51, 2),
    ("enum { a };\nenum a { b }", 51, 2),
    ("native f();\nforward f();", 51, 2),
    ("new n;\nconst c = n", 57, 2),
    ("const c = f();\nf() { }", 57, 1),
    ("const c = f;\nf() { }", 57, 1),
    ("const c = sizeof f;\nf() { }", 57, 1),
    ("const c = \"ab\"", 57, 1),
    ("new n; enum { a,\nb = n }", 57, 1),
    ("new n;\nnew a[n];\nconst c = sizeof a", 57, 2),
    ("new a[] = {1, ...};\nconst c = sizeof a", 57, 1),
    ("new a[2];\nconst c = sizeof a[]", 57, 2),
    ("const c = 1 / 0", 67, 1),
    ("const c = 0 && 1 / 0", 67, 1),
    ("const c = 1 +\n2 / 0", 67, 2),
    ("main() {\nconst c = 1 % 0; }", 67, 2),
    ("new a[1 / 0];\nconst c = sizeof a", 67, 1),
    (
        "F:operator+(F:a, F:b) return a;\nconst F:c = F:1 + F:2",
        57,
        2,
    ),
];

#[test]
fn meanings(rt: HostRuntime) {
    for (source, uses, values) in MEANINGS {
        assert!(rt; resolves(rt.alloc(), source, uses, values), "{source}");
    }
}

#[test]
fn values(rt: HostRuntime) {
    for (source, uses, values) in VALUES {
        assert!(rt; resolves(rt.alloc(), source, uses, values), "{source}");
    }
}

#[test]
fn faults(rt: HostRuntime) {
    for (source, kind, line) in FAULTS {
        assert!(rt; breaks(rt.alloc(), source, kind, line), "{source}");
    }
}
