//! Files spelled by hand, and changes of their bytes.
use pawn_base::{Bytes, Memory};
use std::alloc::{AllocError, Global};

/// The file of an empty main: the header, no tables, and five cells of code.
const EMPTY_MAIN: [u8; 80] = [
    80, 0, 0, 0, 0xE0, 0xF1, 8, 8, 0, 0, 8, 0, // size, magic number, versions, flags, record size
    60, 0, 0, 0, 80, 0, 0, 0, 80, 0, 0, 0, 0x50, 0x40, 0, 0, 8, 0, 0, 0, // cod to stp, cip
    56, 0, 0, 0, 56, 0, 0, 0, 56, 0, 0, 0, 56, 0, 0, 0, 56, 0, 0, 0, 56, 0, 0, 0, // tables
    31, 0, 0, 0, // the name table, and two bytes before the code
    120, 0, 0, 0, 0, 0, 0, 0, 46, 0, 0, 0, 89, 0, 0, 0, 48, 0, 0, 0,
];

pub fn empty_main() -> &'static [u8] {
    &EMPTY_MAIN
}

/// The same with compact cells.
const COMPACT_MAIN: [u8; 67] = [
    67, 0, 0, 0, 0xE0, 0xF1, 8, 8, 4, 0, 8, 0, // size, magic number, versions, flags, record size
    60, 0, 0, 0, 80, 0, 0, 0, 80, 0, 0, 0, 0x50, 0x40, 0, 0, 8, 0, 0, 0, // cod to stp, cip
    56, 0, 0, 0, 56, 0, 0, 0, 56, 0, 0, 0, 56, 0, 0, 0, 56, 0, 0, 0, 56, 0, 0, 0, // tables
    31, 0, 0, 0, // the name table, and two bytes before the code
    0x80, 0x78, 0x00, 0x2E, 0x80, 0x59, 0x30,
];

pub fn compact_main() -> &'static [u8] {
    &COMPACT_MAIN
}

/// The same code with two natives, `p` and `q`.
const TWO_NATIVES: [u8; 100] = [
    100, 0, 0, 0, 0xE0, 0xF1, 8, 8, 0, 0, 8, 0, // size, magic number, versions, flags, record size
    80, 0, 0, 0, 100, 0, 0, 0, 100, 0, 0, 0, 164, 0, 0, 0, 8, 0, 0, 0, // cod to stp, cip
    56, 0, 0, 0, 56, 0, 0, 0, 72, 0, 0, 0, 72, 0, 0, 0, 72, 0, 0, 0, 72, 0, 0, 0, // tables
    0, 0, 0, 0, 74, 0, 0, 0, 0, 0, 0, 0, 76, 0, 0, 0, // two records, each with its name's place
    31, 0, b'p', 0, b'q', 0, 0, 0, // the name table, and two bytes before the code
    120, 0, 0, 0, 0, 0, 0, 0, 46, 0, 0, 0, 89, 0, 0, 0, 48, 0, 0, 0,
];

pub fn two_natives() -> &'static [u8] {
    &TWO_NATIVES
}

/// A file with records in each table, a case table in its code, and nine cells of data. The
/// library's name is empty, and a zero byte stands before the code.
const EVERY_TABLE: [u8; 192] = [
    192, 0, 0, 0, 0xE0, 0xF1, 8, 1, 0x79, 0x80, 8, 0, // size to record size, with other flags
    128, 0, 0, 0, 156, 0, 0, 0, 192, 0, 0, 0, 208, 0, 0, 0, 255, 255, 255, 255, // cod to stp, cip
    56, 0, 0, 0, 80, 0, 0, 0, 88, 0, 0, 0, 96, 0, 0, 0, 104, 0, 0, 0, 112, 0, 0, 0, // tables
    0, 0, 0, 0, 114, 0, 0, 0, 8, 0, 0, 0, 116, 0, 0, 0, 4, 0, 0, 0, 118, 0, 0, 0, // publics
    5, 0, 0, 0, 120, 0, 0, 0, 254, 255, 255, 255, 122, 0, 0, 0, // a native and a library
    12, 0, 0, 0, 123, 0, 0, 0, 7, 0, 0, 0, 125, 0, 0, 0, // a variable and a tag
    31, 0, b'a', 0, b'b', 0, b'b', 0, b'"', 0, 0, b'\\', 0, 200, 0, 0, // the name table
    120, 0, 0, 0, 0, 0, 0, 0, 130, 0, 0, 0, 1, 0, 0, 0, 8, 0, 0, 0, 249, 255, 255, 255, 0, 0, 0, 0,
    255, 255, 255, 255, 0, 0, 0, 0, 255, 255, 255, 127, 0, 0, 0, 128, 5, 0, 0, 0, 6, 0, 0, 0, 7, 0,
    0, 0, 8, 0, 0, 0, 9, 0, 0, 0,
];

pub fn every_table() -> &'static [u8] {
    &EVERY_TABLE
}

/// Those cells in the compact form.
const EVERY_CELL: [u8; 26] = [
    0x80, 0x78, 0x00, 0x81, 0x02, 0x01, 0x08, 0x79, 0x00, // the code
    0x7F, 0x00, 0x87, 0xFF, 0xFF, 0xFF, 0x7F, 0x88, 0x80, 0x80, 0x80, 0x00, 5, 6, 7, 8, 9,
];

/// The same file with compact cells: its size and its flags are other ones.
pub fn every_compact(alloc: Global) -> Result<Vec<u8>, AllocError> {
    let mut bytes = changed(alloc, &EVERY_TABLE, &[0, 154, 8, 0x7D])?;
    bytes.truncate(128);
    bytes.extend_from_slice(&EVERY_CELL)?;
    Ok(bytes)
}

/// A file with changes of its front: each is a place and the byte that is put there.
pub fn changed(alloc: Global, file: &[u8], changes: &[u8]) -> Result<Vec<u8>, AllocError> {
    let mut bytes = Vec::from_slice(alloc, file)?;
    for change in changes.chunks_exact(2) {
        if let [place, byte] = change {
            put(&mut bytes, *place as usize, *byte);
        }
    }
    Ok(bytes)
}

fn put(bytes: &mut Vec<u8>, place: usize, byte: u8) {
    if place < bytes.len() {
        bytes[place] = byte;
    }
}

fn put_word(out: &mut Bytes, word: u32) -> Result<(), Memory> {
    out.append(&word.to_le_bytes())
}

/// The header of a plain file: its size, and its places from cod to the name table.
pub fn header(alloc: Global, size: u32, places: &[u32]) -> Result<Bytes, Memory> {
    let mut out = Bytes::new(alloc);
    put_word(&mut out, size)?;
    out.append(&[0xE0, 0xF1, 8, 8, 0, 0, 8, 0])?;
    for place in places {
        put_word(&mut out, *place)?;
    }
    Ok(out)
}

/// Puts records, each with address 0 and the place of its name.
pub fn put_records(out: &mut Bytes, count: u32, name: u32) -> Result<(), Memory> {
    for _ in 0..count {
        put_word(out, 0)?;
        put_word(out, name)?;
    }
    Ok(())
}

fn put_cells(out: &mut Bytes, cells: &[i32]) -> Result<(), Memory> {
    for cell in cells {
        put_word(out, cell.cast_unsigned())?;
    }
    Ok(())
}

/// The plain file of this code and main at 8, without tables and data.
pub fn with_code(alloc: Global, code: &[i32]) -> Result<Bytes, Memory> {
    let end = 60 + 4 * (code.len() % 64) as u32;
    let places = [60, end, end, 16_464, 8, 56, 56, 56, 56, 56, 56];
    let mut out = header(alloc, end, &places)?;
    out.append(&[31, 0, 0, 0])?;
    put_cells(&mut out, code)?;
    Ok(out)
}

/// Whether what a sink took is a front of a text, and the whole where all was taken.
pub fn is_front(taken: &[u8], text: &[u8], is_whole: bool) -> bool {
    text.starts_with(taken) && (!is_whole || taken.len() == text.len())
}
