use super::judged_types::{breaks_in, names_functions};

#[test]
fn rooms(rt: HostRuntime) {
    let source = "main() { }";
    assert!(rt; breaks_in(rt.alloc(), source, -1, &[(70, 1)]));
    assert!(rt; !breaks_in(rt.alloc(), source, 0, &[(70, 1)]));
    assert!(rt; !breaks_in(rt.alloc(), source, 16_777_216, &[(70, 1)]));
    assert!(rt; breaks_in(rt.alloc(), source, 16_777_217, &[(70, 1)]));
}

/// Sources, and the names of their functions by number.
const NAMES: [(&str, &[&str]); 3] = [
    ("", &[]),
    (
        "forward g();\nmain() { }\ng() <s> { }\nf() { }\ng() <> { }",
        &["main", "g", "f"],
    ),
    (
        "entry() <a:s> { }\nF:operator+(F:a, F:b) return a;\nentry() <b:s> { }\nmain() { }",
        &["entry", "operator+", "entry", "main"],
    ),
];

#[test]
fn names(rt: HostRuntime) {
    for (source, names) in NAMES {
        assert!(rt; names_functions(rt.alloc(), source, names), "{source}");
    }
}
