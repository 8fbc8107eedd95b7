use super::shown_lines::{comes_to, files_of, run, same};
use pawn_base::Memory;
use pawn_outside::MemoryFiles;
use pawn_pre::{Lines, preprocess};
use std::alloc::Global;
use std::test::Fail;

/// A source, the files beside it, each as `name=contents` with a `|` between them, what the source
/// comes to, and how many files are asked for.
type Case = (&'static str, &'static str, &'static str, u64);

/// Includes that are found, passed over or missing.
const INCLUDES: [Case; 22] = [
    ("#include \"q\" // c\na", "q.inc=b", "1:1 b|0:2 a|", 2),
    ("#include q  \na", "q.inc=#endinput\nb", "0:2 a|", 2),
    ("#include \"q\" /*", "q.inc=#error", "fault 12 0:1 s.p", 1),
    (
        "#include <a>\n#include <b.x>\n#include <a>",
        "a.inc=1|b.x=#include s.p\n2",
        "1:1 1|2:2 2|",
        3,
    ),
    ("#if 1\n#include q", "q.inc=#error", "fault 4 1:1 q.inc", 2),
    ("#include q\n#endif", "q.inc=#if 1", "fault 2 1:1 q.inc", 2),
    ("#include q\nA", "q.inc=#define A z", "0:2 z|", 2),
    (
        "#include\"a\"\n#include<b>",
        "a.inc=1|b.inc=\n\n",
        "1:1 1|2:1 |2:2 |",
        3,
    ),
    (
        "#include a b // c\n#include \" q\"",
        "a b.inc=1| q.inc=2",
        "1:1 1|2:1 2|",
        3,
    ),
    (
        "#if 0\n#include a\n#elseif 1\n#include a\n#else\n#include b\n#endif",
        "a.inc=#if 0\n#else\n1\n#endif|b.inc=#error",
        "1:3 1|",
        2,
    ),
    // A file that was begun isn't read again, one that is missing is asked for again.
    (
        "#include a\n#include \"a.inc\"\n#tryinclude <a>\nx",
        "a.inc=#include a\n1",
        "1:2 1|0:4 x|",
        2,
    ),
    ("#tryinclude a\n#tryinclude a\nx", "", "0:3 x|", 3),
    ("#include \"s.p\"\nx", "", "0:2 x|", 1),
    // Names that no file is asked for.
    ("#include \"\"", ".inc=1|=2", "fault 3 0:1 s.p", 1),
    ("#include", ".inc=1|=2", "fault 3 0:1 s.p", 1),
    ("#tryinclude <>\nx", ".inc=1|=2", "0:2 x|", 1),
    ("#include \"q", "q.inc=1|q=2", "fault 3 0:1 s.p", 1),
    ("#tryinclude <q\nx", "q.inc=1|q=2", "0:2 x|", 1),
    ("#tryinclude <a//b>\nx", "a//b.inc=1|a.inc=2", "0:2 x|", 1),
    (
        "#include \"\u{e9}\"",
        "\u{e9}.inc=1|\u{e9}=2",
        "fault 3 0:1 s.p",
        1,
    ),
    ("#tryinclude \u{e9}.p\nx", "\u{e9}.p=1", "0:2 x|", 1),
    ("#if 0\n#include q\n#endif\nx", "q.inc=1", "0:4 x|", 1),
];

/// Holds the files of such a text.
fn hold_all(files: &mut MemoryFiles, text: &str) -> Result<(), Memory> {
    for file in text.split('|') {
        if let Some((name, bytes)) = file.split_once('=') {
            files.hold(name, bytes.as_bytes())?;
        }
    }
    Ok(())
}

/// Whether a source comes to its text, and asks for so many files.
fn holds(alloc: Global, case: &Case) -> Result<bool, Memory> {
    let (source, held, want, calls) = case;
    let mut files = files_of(alloc, &[("s.p", *source)])?;
    hold_all(&mut files, *held)?;
    comes_to(alloc, &mut files, *want, *calls)
}

fn cases() -> &'static [Case] {
    &INCLUDES
}

/// The number of the first row that is wrong.
fn first_wrong(alloc: Global) -> Result<Option<usize>, Memory> {
    for (row, case) in cases().iter().enumerate() {
        if !holds(alloc, case)? {
            return Ok(Some(row));
        }
    }
    Ok(None)
}

#[test]
fn includes(rt: HostRuntime) -> Result<(), Fail> {
    assert_eq!(rt; first_wrong(rt.alloc())?, None);
    Ok(())
}

/// Files that include one another, the sixteenth below the source being `f16.inc`.
const CHAIN: [(&str, &str); 16] = [
    ("s.p", "#include f1"),
    ("f1.inc", "#include f2"),
    ("f2.inc", "#include f3"),
    ("f3.inc", "#include f4"),
    ("f4.inc", "#include f5"),
    ("f5.inc", "#include f6"),
    ("f6.inc", "#include f7"),
    ("f7.inc", "#include f8"),
    ("f8.inc", "#include f9"),
    ("f9.inc", "#include f10"),
    ("f10.inc", "#include f11"),
    ("f11.inc", "#include f12"),
    ("f12.inc", "#include f13"),
    ("f13.inc", "#include f14"),
    ("f14.inc", "#include f15"),
    ("f15.inc", "#include f16"),
];

/// What the last file of the chain holds, and what the source then comes to.
const ENDS: [(&str, &str); 3] = [
    ("#include f17", "fault 8 16:1 f16.inc"),
    ("#tryinclude \"\u{e9}\"", "fault 8 16:1 f16.inc"),
    ("end", "16:1 end|"),
];

/// Whether all files of the chain are read, and no other is asked for.
fn is_read_to_its_end(alloc: Global, end: &str, want: &str) -> Result<bool, Memory> {
    let mut files = files_of(alloc, &CHAIN)?;
    files.hold("f16.inc", end.as_bytes())?;
    comes_to(alloc, &mut files, want, 17)
}

/// Whether each end of the chain is read so.
fn are_read(alloc: Global) -> Result<bool, Memory> {
    for (end, want) in &ENDS {
        if !is_read_to_its_end(alloc, *end, *want)? {
            return Ok(false);
        }
    }
    Ok(true)
}

#[test]
fn depth(rt: HostRuntime) -> Result<(), Fail> {
    assert!(rt; are_read(rt.alloc())?);
    Ok(())
}

/// The source and two includes are read, and nothing is asked for a fourth time: the call that
/// fails, what comes of it, and the calls that are made.
const SCHEDULES: [(u32, &str, u64); 4] = [
    (1, "files", 1),
    (2, "files", 2),
    (3, "files", 3),
    (4, "1:1 1|2:1 2|", 3),
];

/// Whether such calls are made where this one fails.
fn fails_at(alloc: Global, call: u32, want: &str, calls: u64) -> Result<bool, Memory> {
    let mut files = MemoryFiles::new(alloc, &[call])?;
    files.hold("s.p", b"#include a\n#include b")?;
    files.hold("a.inc", b"1")?;
    files.hold("b.inc", b"2")?;
    comes_to(alloc, &mut files, want, calls)
}

/// Whether each schedule is kept.
fn are_kept(alloc: Global) -> Result<bool, Memory> {
    for (call, want, calls) in &SCHEDULES {
        if !fails_at(alloc, *call, *want, *calls)? {
            return Ok(false);
        }
    }
    Ok(true)
}

#[test]
fn schedules(rt: HostRuntime) -> Result<(), Fail> {
    assert!(rt; are_kept(rt.alloc())?);
    Ok(())
}

/// Whether a source that is missing is told, and a source's own name is passed over, though it
/// can't be asked for.
fn are_named(alloc: Global) -> Result<bool, Memory> {
    let own = ("\u{e9}.p", "#include \"\u{e9}.p\"\nx");
    let mut files = files_of(alloc, &[("s.p", "x"), own])?;
    let missing = run(alloc, "q.p", &mut files)?;
    let passed = run(alloc, "\u{e9}.p", &mut files)?;
    let is_missing = same(missing.as_slice(), b"no source");
    Ok(is_missing && same(passed.as_slice(), b"0:2 x|") && files.calls() == 2)
}

#[test]
fn missing(rt: HostRuntime) -> Result<(), Fail> {
    assert!(rt; are_named(rt.alloc())?);
    Ok(())
}

/// Whether the settings that two files began are those of the last line.
fn have_settings(lines: &Lines) -> bool {
    match lines.lines.as_slice() {
        [.., last] => {
            let is_set = last.strict && !last.packed && last.ctrl == b'^';
            is_set && lines.dynamic == -1 && lines.files.len() == 2
        }
        [] => false,
    }
}

/// A source that begins four settings and ends one, and an include that sets a fifth.
const SETTINGS: [(&str, &str); 2] = [
    (
        "s.p",
        "a\n#pragma semicolon 1\n#pragma pack 2\n#pragma ctrlchar '^'\n#include q\n\
         #pragma pack 0\nc",
    ),
    ("q.inc", "#pragma dynamic 0xFFFFFFFF\nb"),
];

#[test]
fn settings(rt: HostRuntime) -> Result<(), Fail> {
    let mut files = files_of(rt.alloc(), &SETTINGS)?;
    let is_set = match preprocess(rt.alloc(), "s.p", &mut files) {
        Ok(lines) => have_settings(&lines),
        Err(_) => false,
    };
    assert!(rt; is_set);
    Ok(())
}
