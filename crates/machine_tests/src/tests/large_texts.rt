ghost use Rattle.std.specs.Prelude.{◌≤◌, ◌<◌};

use super::assembled::{assembled, refusal_of};
use pawn_base::{Bytes, Memory};
use std::alloc::Global;

/// The most bytes of a text.
const LIMIT: usize = 16_777_216;

/// The header of a file without cells.
const NO_CELLS: &[u8] = b"amx flags 0 version 8 code 0 data 0 room 0 entry -1\n";

/// Records with an empty name.
const FOUR_TAGS: &[u8] = b"tag 0 \"\"\ntag 0 \"\"\ntag 0 \"\"\ntag 0 \"\"\n";

/// What the file of a text has: so many cells of code and of data, and so many tags.
type Counts = (usize, usize, usize);

/// A text of a front, of a part that stands so many times, and of a back.
fn repeated(
    alloc: Global,
    front: &[u8],
    part: &[u8],
    times: u32,
    back: &[u8],
) -> Result<Bytes, Memory> {
    let mut text = Bytes::from_slice(alloc, front)?;
    for _ in 0..times {
        text.append(part)?;
    }
    text.append(back)?;
    Ok(text)
}

fn counts(alloc: Global, text: &[u8]) -> Option<Counts> {
    if LIMIT < text.len() {
        return None;
    }
    match assembled(alloc, text) {
        Ok(amx) => Some((amx.code.len(), amx.store.len(), amx.tags.len())),
        Err(_) => None,
    }
}

/// How long the name of the one library is of a text's file.
fn name_length(alloc: Global, text: &[u8]) -> Option<usize> {
    if LIMIT < text.len() {
        return None;
    }
    match assembled(alloc, text) {
        Ok(amx) => match amx.libraries.as_slice() {
            [library] => Some(library.name.len()),
            _ => None,
        },
        Err(_) => None,
    }
}

/// The size of a text whose second line is all but 79 bytes of it, and the length of its name.
fn with_name(alloc: Global) -> Option<(usize, usize)> {
    let front = b"amx flags 0 version 8 code 0 data 0 room 0 entry -1\nlibrary 0 \"n";
    let back = b"\"\ncode\ndata\nend\n";
    let text = repeated(alloc, front, b"nnnnnnnnnnnnnnnn", 1_048_571, back).ok()?;
    let length = name_length(alloc, text.as_slice())?;
    Some((text.len(), length))
}

#[test]
fn a_long_name(rt: HostRuntime) {
    assert!(rt; with_name(rt.alloc()) == Some((LIMIT, 16_777_137)));
}

/// The size of a text with 1,864,127 records, and what is counted of it.
fn with_records(alloc: Global) -> Option<(usize, Counts)> {
    let back = b"tag 0 \"\"\ntag 0 \"\"\ntag 0 \"seventh\"\ncode\ndata\nend\n";
    let text = repeated(alloc, NO_CELLS, FOUR_TAGS, 466_031, back).ok()?;
    let counts = counts(alloc, text.as_slice())?;
    Some((text.len(), counts))
}

/// The refusal of a front and of a part that stands so many times.
fn refused(alloc: Global, front: &[u8], part: &[u8], times: u32) -> Option<(u8, u32)> {
    match repeated(alloc, front, part, times, b"") {
        Ok(text) => refusal_of(alloc, text.as_slice()),
        Err(_) => None,
    }
}

/// Records up to the greatest size, and fewer where the line before the code is missing.
#[test]
fn many_records(rt: HostRuntime) {
    assert!(rt; with_records(rt.alloc()) == Some((LIMIT, (0, 0, 1_864_127))));
    assert!(rt; refused(rt.alloc(), NO_CELLS, FOUR_TAGS, 466_031) == Some((140, 1_864_126)));
}

/// Texts of 16 MiB of one kind of byte: lines of none, and one line that doesn't end.
#[test]
fn bytes_of_one_kind(rt: HostRuntime) {
    let lines = b"\n\n\n\n\n\n\n\n\n\n\n\n\n\n\n\n";
    assert!(rt; refused(rt.alloc(), b"", lines, 1_048_576) == Some((140, 1)));
    let digits = b"1111111111111111";
    assert!(rt; refused(rt.alloc(), b"amx flags 111111", digits, 1_048_575) == Some((140, 1)));
}

/// What is counted of a text whose code is all in one line but for three cells.
fn with_cases(alloc: Global) -> Option<Counts> {
    let front = b"amx flags 0 version 8 code 4000000 data 0 room 0 entry -1\n\
        code\n00000000 HALT 0\n00000008 PROC\n0000000c CASETBL 1999997 0 0 0";
    let text = repeated(alloc, front, b" 0 0 0 0", 999_998, b"\ndata\nend\n").ok()?;
    counts(alloc, text.as_slice())
}

/// 4,000,000 cells of code, in a line of eight million bytes.
#[test]
fn a_long_line_of_cells(rt: HostRuntime) {
    assert!(rt; with_cases(rt.alloc()) == Some((4_000_000, 0, 0)));
}

fn digit_of(number: u32) -> u8
    requires { number < 16 }
{
    if number < 10 {
        b'0' + number as u8
    } else {
        b'a' + (number - 10) as u8
    }
}

/// The eight digits of an address.
fn address_text(address: u32) -> [u8; 8] {
    let mut digits = [b'0'; 8];
    let mut rest = address;
    for place in 0..8 {
        digits[7 - place] = digit_of(rest % 16);
        rest /= 16;
    }
    digits
}

/// Puts so many rows of eight cells, each behind its address.
fn put_rows(out: &mut Bytes, rows: u32) -> Result<(), Memory>
    requires { rows ≤ 500000 }
{
    for row in 0..rows {
        out.append(&address_text(32 * row))?;
        out.append(b" 0 0 0 0 0 0 0 0\n")?;
    }
    Ok(())
}

/// A text whose header counts 4,000,000 cells of data, with so many rows of eight.
fn with_rows(alloc: Global, rows: u32) -> Result<Bytes, Memory>
    requires { rows ≤ 500000 }
{
    let front = b"amx flags 0 version 8 code 0 data 4000000 room 0 entry -1\ncode\ndata\n";
    let mut text = Bytes::from_slice(alloc, front)?;
    put_rows(&mut text, rows)?;
    text.append(b"end\n")?;
    Ok(text)
}

fn counts_of_rows(alloc: Global) -> Option<Counts> {
    let text = with_rows(alloc, 500_000).ok()?;
    counts(alloc, text.as_slice())
}

fn refusal_of_rows(alloc: Global) -> Option<(u8, u32)> {
    let text = with_rows(alloc, 499_999).ok()?;
    refusal_of(alloc, text.as_slice())
}

/// 4,000,000 cells of data, and a row fewer than the header counts.
#[test]
fn many_cells(rt: HostRuntime) {
    assert!(rt; counts_of_rows(rt.alloc()) == Some((0, 4_000_000, 0)));
    assert!(rt; refusal_of_rows(rt.alloc()) == Some((142, 500_003)));
}
