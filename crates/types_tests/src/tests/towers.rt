use super::shown_trees::begins;
use std::alloc::{AllocError, Global};

/// A text, and what is repeated behind it.
type Part = (&'static str, &'static str);

/// Two parts, how often each repeats, and what the answer begins with.
type Tower = (Part, Part, u32, &'static str);

/// Sources at the limits of brackets and of levels, and beyond them.
const TOWERS: [Tower; 18] = [
    (("main() return ", "("), ("1", ")"), 256, "tree 259 1"),
    (("main() return ", "("), ("1", ")"), 257, "deep 260"),
    (("", "("), ("", ""), 257, "deep 256"),
    (("main() ", "{"), ("", "}"), 256, "tree 257 1"),
    (("main() ", "{"), ("", "}"), 257, "deep 259"),
    ((") ] } main() ", "["), ("", "]"), 256, "syntax 0"),
    (("new a = ", "~"), ("1", ""), 1022, "tree 1024 1"),
    (("new a = ", "~"), ("1", ""), 1023, "syntax 1026"),
    (("main() return 1", "+1"), ("", ""), 1021, "tree 1024 1"),
    (("main() return 1", "+1"), ("", ""), 1022, "syntax 4"),
    (("main() return 2-1*~1", "+1"), ("", ""), 1019, "syntax 9"),
    (("main() return f(2, ~1)", "+1"), ("", ""), 1020, "syntax 9"),
    (("main() return (1<~2<3)", "+1"), ("", ""), 1019, "syntax 8"),
    (
        ("main() ", "if (a) ;\nelse "),
        (";", ""),
        1022,
        "tree 1024 1",
    ),
    (("main() ", "if (a) ;\nelse "), (";", ""), 1023, "syntax"),
    (("main() ", "while (a)\n"), (";", ""), 1022, "tree 1024 1"),
    (("main() ", "a = "), ("1", ""), 1020, "tree 1023 1"),
    (
        ("", "f() return 1 + 2 * (3 - a)\n"),
        ("", ""),
        2_000,
        "tree 7 2000",
    ),
];

/// Puts a part at the end, with so many repeats.
fn push_part(text: &mut String, part: &Part, times: u32) -> Result<(), AllocError> {
    text.push_str(part.0)?;
    for _ in 0..times {
        text.push_str(part.1)?;
    }
    Ok(())
}

fn source_of(alloc: Global, tower: &Tower) -> Result<String, AllocError> {
    let (first, second, times, _) = tower;
    let mut source = String::new(alloc);
    push_part(&mut source, first, *times)?;
    push_part(&mut source, second, *times)?;
    Ok(source)
}

/// Whether what is shown of a tower begins as wanted.
fn stands(alloc: Global, tower: &Tower) -> bool {
    match source_of(alloc, tower) {
        Ok(source) => begins(alloc, source.as_str(), tower.3),
        Err(_) => false,
    }
}

#[test]
fn towers(rt: HostRuntime) {
    for tower in &TOWERS {
        let ((_, repeated), _, times, _) = tower;
        assert!(rt; stands(rt.alloc(), tower), "{times} of {repeated}");
    }
}
