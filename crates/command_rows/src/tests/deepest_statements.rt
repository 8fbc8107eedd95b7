//! Statements nested as deeply as a tree may be, compiled and run on the stack that a process has.

use anyhow::Error;
use pawn_cli::{Status, pawn};
use pawn_outside::{MemoryFiles, MemorySink};
use std::alloc::Global;

/// A text, and what is repeated behind it.
type Part = (&'static str, &'static str);

/// Two parts, how often each repeats, what stands behind them, and what the run prints.
type Tower = (Part, Part, u32, &'static str, &'static str);

/// The deepest tree of each kind of statement.
const TOWERS: [Tower; 7] = [
    (
        ("main() ", "if (1)\n"),
        ("", ""),
        1021,
        "return 7;",
        "done 7\n",
    ),
    (
        ("main() ", "if (0) ; else\n"),
        ("", ""),
        1021,
        "return 7;",
        "done 7\n",
    ),
    (("main() ", "while (0)\n"), ("", ""), 1022, ";", "done 0\n"),
    (
        ("main() ", "do\n"),
        (";\n", "while (0);\n"),
        1022,
        "",
        "done 0\n",
    ),
    (
        ("main() ", "for (new i = 0; i < 1; i++)\n"),
        ("", ""),
        1021,
        ";",
        "done 0\n",
    ),
    (
        ("main() {\n", "{ new a; if (1) if (1) if (1)\n"),
        (";\n", "}\n"),
        254,
        "return 7; }",
        "done 7\n",
    ),
    (
        ("main() {\n", "switch (1) { case 1: if (1) if (1) if (1)\n"),
        ("return 7;\n", "}\n"),
        254,
        "}",
        "done 7\n",
    ),
];

/// Puts a part at the end, with so many repeats.
fn push_part(text: &mut String, part: &Part, times: u32) -> Result<(), Error> {
    text.push_str(part.0)?;
    for _ in 0..times {
        text.push_str(part.1)?;
    }
    Ok(())
}

fn source_of(alloc: Global, tower: &Tower) -> Result<String, Error> {
    let (first, second, times, end, _) = tower;
    let mut source = String::new(alloc);
    push_part(&mut source, first, *times)?;
    push_part(&mut source, second, *times)?;
    source.push_str(end)?;
    source.push_str("\n")?;
    Ok(source)
}

/// Whether a command over a source ends well, having written this.
fn prints(alloc: Global, words: &[&str], source: &str, line: &str) -> Result<bool, Error> {
    let mut files = MemoryFiles::new(alloc, &[])?;
    files.hold("s.p", source.as_bytes())?;
    let mut out = MemorySink::new(alloc, 1 << 20, &[])?;
    let mut owned = Vec::new(alloc);
    for word in words {
        owned.push(String::from_str(alloc, word)?)?;
    }
    let status = pawn(alloc, &owned, &mut files, &mut out);
    Ok(status == Status::Ok && out.bytes().ends_with(line.as_bytes()))
}

/// Whether a tower is compiled, run, and its room told.
fn goes(alloc: Global, tower: &Tower) -> bool {
    let Ok(source) = source_of(alloc, tower) else {
        return false;
    };
    let ran = prints(alloc, &["go", "s.p", "s.amx"], source.as_str(), tower.4);
    let told = prints(alloc, &["usage", "s.p"], source.as_str(), "");
    matches!((ran, told), (Ok(true), Ok(true)))
}

#[test]
fn each_kind_of_statement(rt: HostRuntime) {
    for tower in &TOWERS {
        assert!(rt; goes(rt.alloc(), tower));
    }
}
