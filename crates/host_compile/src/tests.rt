use super::sources::Sources;
use pawn_base::Memory;
use pawn_front::Encoding;
use std::alloc::Global;
use std::rt::HostRuntime;

/// A source with an include, one with a warning (Language Guide, "Tag names"), and one that breaks
/// a rule in its second line.
fn three_sources(alloc: Global) -> Result<Sources, Memory> {
    let mut sources = Sources::new(alloc)?;
    let files = [
        ("main.p", "#include \"part\"\nmain() { return part(); }\n"),
        ("part.inc", "part() { return 7; }\n"),
        ("warn.p", "new Second:time;\nmain() { time = 3; }\n"),
        ("bad.p", "main() {\nx = 1;\n}\n"),
    ];
    for (name, text) in files {
        match sources.hold(name, text.as_bytes()) {
            Ok(()) => {}
            Err(Memory) => {
                drop(sources);
                return Err(Memory);
            }
        }
    }
    Ok(sources)
}

/// The status of a source, with the count of bytes, of warnings, the rule and its line.
fn outcome(alloc: Global, name: &str) -> Option<(i32, bool, usize, u8, u32)> {
    let Ok(mut sources) = three_sources(alloc) else {
        return None;
    };
    sources.compile(alloc, name, Encoding::Plain);
    let has_bytes = has_size(sources.bytes());
    let told = (
        sources.status(),
        has_bytes,
        sources.warnings().len(),
        sources.rule(),
        sources.line(),
    );
    drop(sources);
    Some(told)
}

/// Whether bytes begin with their count and the magic number (Implementer's Guide, "The file
/// format").
fn has_size(bytes: &[u8]) -> bool {
    match bytes {
        [a, b, c, d, 0xE0, 0xF1, ..] => {
            u32::from_le_bytes([*a, *b, *c, *d]) as usize == bytes.len()
        }
        _ => false,
    }
}

#[test]
fn sources_in_memory_are_compiled(rt: HostRuntime) {
    let alloc = rt.alloc();
    assert!(rt; outcome(alloc, "main.p") == Some((0, true, 0, 0, 0)));
    assert!(rt; outcome(alloc, "warn.p") == Some((0, true, 1, 0, 0)));
    assert!(rt; outcome(alloc, "bad.p") == Some((1, false, 0, 50, 2)));
    assert!(rt; outcome(alloc, "none.p") == Some((3, false, 0, 0, 0)));
}
