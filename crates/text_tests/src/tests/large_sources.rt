use super::shown_lines::{comes_to, files_of, run};
use pawn_base::{Bytes, Memory};
use pawn_outside::MemoryFiles;
use std::alloc::Global;
use std::test::Fail;

/// A text, and what is repeated behind it.
type Part = (&'static str, &'static str);

/// Two parts, how often each repeats, and what the text of the answer begins with.
type Case = (Part, Part, u32, &'static str);

/// Fifty bytes.
const FIFTY: &str = "xxxxxxxxxxxxxxxxxxxxxxxxxxxxxxxxxxxxxxxxxxxxxxxxxx";

/// A comment of 46 bytes, and its line end.
const COMMENT: &str = "// 0123456789 0123456789 0123456789 0123456789\n";

/// Sixty-four bytes, and their line end.
const LINE: &str = "0123456789 0123456789 0123456789 0123456789 0123456789 012345678\n";

/// Sources at the limits, and large ones.
const LARGE: [Case; 14] = [
    (("", "x"), ("", ""), 4095, "0:1 xxx"),
    (("", "x"), ("", ""), 4096, "fault 9 0:1 s.p"),
    (("#define A b\n", "A "), ("", ""), 1000, "0:2 b b b"),
    (("#define A b\n", "A "), ("", ""), 1001, "fault 7 0:2 s.p"),
    (("#if 1", " "), ("\na\n#endif", ""), 4093, "0:2 a|"),
    (("#if 1", " "), ("\na\n#endif", ""), 4094, "fault 9 0:1 s.p"),
    (("#if ", "("), ("1", ")"), 2000, "fault 2 0:1 s.p"),
    (("", "#if 1\n"), ("x\n", "#endif\n"), 3000, "0:3001 x|"),
    // A text that is far too long for a line, whole or by what its parameters take.
    (
        ("#define A ", FIFTY),
        ("\nA", ""),
        20_000,
        "fault 9 0:2 s.p",
    ),
    (
        ("#define A(%1) ", "%1"),
        ("\nA(12345678)", ""),
        5000,
        "fault 9 0:2 s.p",
    ),
    // Many lines, and two megabytes of them.
    (("", "x\n"), ("", ""), 70_000, "0:1 x|0:2 x|0:3 x|"),
    (("", COMMENT), ("", ""), 45_000, "0:1  |0:2  |0:3  |"),
    // 1,048,576 bytes together, and more.
    (("", LINE), ("", ""), 16_384, "0:1 0123456789 "),
    (("", LINE), ("", ""), 16_385, "fault 10 0:16385 s.p"),
];

/// Puts a part at the end, with so many repeats.
fn append_part(text: &mut Bytes, part: &Part, count: u32) -> Result<(), Memory> {
    text.append(part.0.as_bytes())?;
    for _ in 0..count {
        text.append(part.1.as_bytes())?;
    }
    Ok(())
}

/// The source of a case.
fn source_of(alloc: Global, case: &Case) -> Result<Bytes, Memory> {
    let (first, second, count, _) = case;
    let mut source = Bytes::new(alloc);
    append_part(&mut source, first, *count)?;
    append_part(&mut source, second, *count)?;
    Ok(source)
}

/// Whether what a source comes to begins so.
fn begins_so(alloc: Global, case: &Case) -> Result<bool, Memory> {
    let source = source_of(alloc, case)?;
    let mut files = MemoryFiles::new(alloc, &[])?;
    files.hold("s.p", source.as_slice())?;
    let got = run(alloc, "s.p", &mut files)?;
    Ok(got.as_slice().starts_with(case.3.as_bytes()))
}

#[test]
fn large(rt: HostRuntime) {
    for case in &LARGE {
        let (_, _, count, want) = case;
        assert!(rt; begins_so(rt.alloc(), case) == Ok(true), "{count} {want}");
    }
}

/// Sources beside a file that is too large, what they come to, and the calls that are made.
const BESIDE_LARGE: [(&str, &str, u64); 3] = [
    ("#include q\n#error", "too large q.inc", 2),
    ("#include q /*", "fault 12 0:1 s.p", 1),
    ("#error\n#include q", "fault 4 0:1 s.p", 1),
];

/// Whether each source is read so beside a file of one byte too many.
fn are_read_beside_large(alloc: Global) -> Result<bool, Memory> {
    let large = vec![in alloc; b'x'; 16_777_217usize]?;
    for (source, want, calls) in &BESIDE_LARGE {
        let mut files = files_of(alloc, &[("s.p", *source)])?;
        files.hold("q.inc", large.as_slice())?;
        if !comes_to(alloc, &mut files, *want, *calls)? {
            return Ok(false);
        }
    }
    Ok(true)
}

#[test]
fn large_files(rt: HostRuntime) -> Result<(), Fail> {
    assert!(rt; are_read_beside_large(rt.alloc())?);
    Ok(())
}

/// A name of 300 bytes.
fn long_name(alloc: Global) -> Result<String, Memory> {
    let mut name = String::new(alloc);
    for _ in 0..30 {
        name.push_str("abcdefghi/")?;
    }
    Ok(name)
}

/// Whether a fault names a source whose name is long.
fn is_named(alloc: Global) -> Result<bool, Memory> {
    let name = long_name(alloc)?;
    let mut files = files_of(alloc, &[(name.as_str(), "x\n#error")])?;
    let got = run(alloc, name.as_str(), &mut files)?;
    let front = b"fault 4 0:2 abcdefghi/abcdefghi/";
    Ok(got.as_slice().starts_with(front.as_slice()) && got.len() == 312)
}

#[test]
fn long_names(rt: HostRuntime) -> Result<(), Fail> {
    assert!(rt; is_named(rt.alloc())?);
    Ok(())
}
