use super::base::{changed, compact_main, empty_main, two_natives};
use amx_format::{code_place, file_size, is_compact, read};
use std::alloc::Global;
use std::test::Fail;

/// Changes of a file, and the number of the fault that it then has, 0 where it is read.
type Row = (&'static [u8], u8);

/// Changes of the file of an empty main.
const HEADERS: [Row; 33] = [
    (&[4, 0], 91),
    (&[6, 7], 92),
    (&[7, 0], 92),
    (&[7, 9], 92),
    (&[10, 12], 93),
    (&[0, 79], 97),
    (&[0, 81], 97),
    (&[0, 55], 97),
    (&[3, 0x80], 97),
    // A size above the bytes isn't good where bytes may follow, nor is another hea in the plain
    // form.
    (&[0, 81, 8, 2], 97),
    (&[20, 84], 97),
    // Tables that fall, have a part of a record, begin in the header, or leave no room for a
    // number.
    (&[52, 59], 94),
    (&[36, 64], 94),
    (&[36, 57], 94),
    (&[32, 48], 94),
    (&[32, 58, 36, 58, 40, 58, 44, 58, 48, 58, 52, 58], 0),
    (&[32, 59, 36, 59, 40, 59, 44, 59, 48, 59, 52, 59], 94),
    // Parts that fall, or are no multiples of 4.
    (&[24, 76, 25, 0], 94),
    (&[16, 56], 94),
    (&[16, 61], 94),
    (&[24, 0x51], 94),
    (&[27, 0x80], 94),
    // 134,217,728 bytes from cod to stp, and four more.
    (&[24, 60, 25, 0, 27, 8], 0),
    (&[24, 64, 25, 0, 27, 8], 94),
    // Each fault with all behind it.
    (&[4, 0, 6, 7, 10, 12, 0, 79, 52, 59], 91),
    (&[6, 7, 10, 12, 0, 79, 52, 59], 92),
    (&[10, 12, 0, 79, 52, 59], 93),
    (&[0, 79, 52, 59], 97),
    (&[8, 4, 52, 59], 94),
    // No fault: other flags, the first version, a main within an instruction.
    (&[8, 0xF9, 9, 0xFF], 0),
    (&[8, 2], 0),
    (&[7, 1], 0),
    (&[28, 4], 0),
];

fn headers() -> &'static [Row] {
    &HEADERS
}

/// Changes of the file with two natives.
const NAMES: [Row; 9] = [
    (&[68, 80], 95),
    (&[60, 73], 95),
    (&[60, 72], 95),
    (&[77, 1, 78, 1, 79, 1], 96),
    // A name outside the table goes before an open one of an earlier record.
    (&[75, 1, 76, 1, 77, 1, 78, 1, 79, 1, 68, 80], 95),
    (&[75, 1, 76, 1, 77, 1, 78, 1, 79, 1], 96),
    (&[24, 96, 68, 80], 94),
    // Both go before a fault of compact cells.
    (&[8, 4, 68, 80], 95),
    (&[8, 4, 77, 1, 78, 1, 79, 1], 96),
];

fn names() -> &'static [Row] {
    &NAMES
}

/// Changes of the file with compact cells: one cell more, an open one, five bytes that go on, a
/// sixth, bytes behind the last cell, and code that begins behind the size.
const CELLS: [Row; 7] = [
    (&[16, 84, 20, 84, 24, 0x54], 80),
    (&[66, 0xB0], 81),
    (&[62, 0x80, 63, 0x80, 64, 0x80, 65, 0x80, 66, 0x80], 81),
    (
        &[60, 0x80, 61, 0x80, 62, 0x80, 63, 0x80, 64, 0x80, 65, 0],
        82,
    ),
    (&[16, 76, 20, 76, 24, 0x4C], 83),
    (&[16, 60, 20, 60, 24, 0x3C], 83),
    (&[12, 68, 16, 88, 20, 88, 24, 0x58], 94),
];

fn cells() -> &'static [Row] {
    &CELLS
}

/// The number of a file's fault, or 0.
fn fault_of(alloc: Global, bytes: &[u8]) -> u8 {
    match read(alloc, bytes) {
        Ok(_amx) => 0,
        Err(fault) => fault.number().unwrap_or(255),
    }
}

/// Whether a file with a row's changes has its fault.
fn row_holds(alloc: Global, file: &[u8], row: &Row) -> bool {
    match changed(alloc, file, row.0) {
        Ok(bytes) => fault_of(alloc, bytes.as_slice()) == row.1,
        Err(_) => false,
    }
}

#[test]
fn faults_of_the_header(rt: HostRuntime) {
    for (number, row) in headers().iter().enumerate() {
        assert!(rt; row_holds(rt.alloc(), empty_main(), row), "{number}");
    }
}

#[test]
fn faults_of_names(rt: HostRuntime) {
    for (number, row) in names().iter().enumerate() {
        assert!(rt; row_holds(rt.alloc(), two_natives(), row), "{number}");
    }
}

#[test]
fn faults_of_cells(rt: HostRuntime) {
    for (number, row) in cells().iter().enumerate() {
        assert!(rt; row_holds(rt.alloc(), compact_main(), row), "{number}");
    }
}

#[test]
fn fewer_bytes_than_a_header(rt: HostRuntime) {
    assert!(rt; fault_of(rt.alloc(), &[]) == 90);
    assert!(rt; fault_of(rt.alloc(), &[0; 55]) == 90);
}

/// Whether a file is one, whose header says this size, this place of the code and this form.
fn says(alloc: Global, bytes: &[u8], size: u32, code: u32, compact: bool) -> bool {
    match read(alloc, bytes) {
        Ok(_amx) => {
            file_size(bytes) == size && code_place(bytes) == code && is_compact(bytes) == compact
        }
        Err(_) => false,
    }
}

#[test]
fn what_a_header_says(rt: HostRuntime) {
    let plain = says(rt.alloc(), empty_main(), 80, 60, false);
    assert!(rt; plain && says(rt.alloc(), compact_main(), 67, 60, true));
}

/// Whether these bytes are a file with this code.
fn has_code(alloc: Global, bytes: &[u8], code: &[i32]) -> bool {
    match read(alloc, bytes) {
        Ok(amx) => amx.code.as_slice() == code,
        Err(_) => false,
    }
}

/// The code may begin at any place: here a byte later, so that it is another one.
#[test]
fn code_at_an_odd_place(rt: HostRuntime) -> Result<(), Fail> {
    let places = &[12, 61, 16, 81, 20, 81, 24, 0x51];
    let bytes = changed(rt.alloc(), compact_main(), places)?;
    assert!(rt; has_code(rt.alloc(), bytes.as_slice(), &[-8, 0, 46, 89, 48]));
    Ok(())
}

/// Places of the second native's name, and what it is then: shared, a part of another, empty.
const PLACES: [(u8, &[u8]); 5] = [(76, b"q"), (74, b"p"), (75, b""), (77, b""), (79, b"")];

fn places() -> &'static [(u8, &'static [u8])] {
    &PLACES
}

/// Whether these bytes are a file whose second native has this name.
fn has_second(alloc: Global, bytes: &[u8], name: &[u8]) -> bool {
    match read(alloc, bytes) {
        Ok(amx) => match amx.natives.as_slice() {
            [_, second] => second.name.as_slice() == name,
            _ => false,
        },
        Err(_) => false,
    }
}

/// Whether the second native's name, which stands at a place, is read as this.
fn is_named(alloc: Global, place: u8, name: &[u8]) -> bool {
    match changed(alloc, two_natives(), &[68, place]) {
        Ok(bytes) => has_second(alloc, bytes.as_slice(), name),
        Err(_) => false,
    }
}

#[test]
fn names_are_shared_or_empty(rt: HostRuntime) {
    for (place, name) in places() {
        assert!(rt; is_named(rt.alloc(), *place, *name), "{place}");
    }
}
