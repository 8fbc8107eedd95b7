//! The texts that answers are compared as.
use itoa::Buffer;
use pawn_base::{Bytes, Memory};
use pawn_cells::Place;
use pawn_outside::MemoryFiles;
use pawn_pre::{Line, Lines, PreFault, preprocess};
use std::alloc::Global;

/// Whether bytes are those that are wanted.
pub fn same(got: &[u8], want: &[u8]) -> bool {
    got == want
}

/// Puts a number and a byte at the end.
pub fn put_number(out: &mut Bytes, number: u64, end: u8) -> Result<(), Memory> {
    out.append(Buffer::new().format(number).as_bytes())?;
    out.push(end)
}

/// Puts the file, the line and a blank at the end.
pub fn put_place(out: &mut Bytes, place: Place) -> Result<(), Memory> {
    put_number(out, place.file, b':')?;
    put_number(out, place.line as u64, b' ')
}

/// Puts each line behind its place.
fn put_lines(out: &mut Bytes, lines: &[Line]) -> Result<(), Memory> {
    for line in lines {
        put_place(out, line.place)?;
        out.append(line.bytes.as_slice())?;
        out.push(b'|')?;
    }
    Ok(())
}

/// Puts a fault of a source, its place and the file's name.
fn put_source_fault(out: &mut Bytes, kind: u8, place: Place, name: &[u8]) -> Result<(), Memory> {
    out.append(b"fault ")?;
    put_number(out, kind as u64, b' ')?;
    put_place(out, place)?;
    out.append(name)
}

/// Puts why there are no lines.
fn put_fault(out: &mut Bytes, fault: &PreFault) -> Result<(), Memory> {
    match fault {
        PreFault::Source { kind, place, name } => {
            put_source_fault(out, *kind, *place, name.as_slice())
        }
        PreFault::NoSource => out.append(b"no source"),
        PreFault::TooLarge(name) => {
            out.append(b"too large ")?;
            out.append(name.as_slice())
        }
        PreFault::Files => out.append(b"files"),
        PreFault::Memory => out.append(b"memory"),
    }
}

/// The lines, each behind its place and before a `|`, or why there are none.
fn shown(alloc: Global, answer: &Result<Lines, PreFault>) -> Result<Bytes, Memory> {
    let mut out = Bytes::new(alloc);
    match answer {
        Ok(lines) => put_lines(&mut out, lines.lines.as_slice())?,
        Err(fault) => put_fault(&mut out, fault)?,
    }
    Ok(out)
}

/// Files of these names and contents.
pub fn files_of(alloc: Global, held: &[(&str, &str)]) -> Result<MemoryFiles, Memory> {
    let mut files = MemoryFiles::new(alloc, &[])?;
    for (name, bytes) in held {
        files.hold(*name, bytes.as_bytes())?;
    }
    Ok(files)
}

/// What the source of this name among these files comes to.
pub fn run(alloc: Global, name: &str, files: &mut MemoryFiles) -> Result<Bytes, Memory> {
    shown(alloc, &preprocess(alloc, name, files))
}

/// Whether the source `s.p` comes to this, and so many files are asked for.
pub fn comes_to(
    alloc: Global,
    files: &mut MemoryFiles,
    want: &str,
    calls: u64,
) -> Result<bool, Memory> {
    let got = run(alloc, "s.p", files)?;
    Ok(same(got.as_slice(), want.as_bytes()) && files.calls() == calls)
}
