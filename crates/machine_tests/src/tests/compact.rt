use amx_compact::{CompactFault, fits, read_cells, write_cell};
use pawn_base::{Bytes, Memory};
use std::alloc::Global;

/// Cells with their shortest spellings.
const SPELLINGS: [(i32, &[u8]); 9] = [
    (0, &[0x00]),
    (-1, &[0x7F]),
    (63, &[0x3F]),
    (64, &[0x80, 0x40]),
    (-64, &[0x40]),
    (-65, &[0xFF, 0x3F]),
    (120, &[0x80, 0x78]),
    (i32::MAX, &[0x87, 0xFF, 0xFF, 0xFF, 0x7F]),
    (i32::MIN, &[0x88, 0x80, 0x80, 0x80, 0x00]),
];

/// Those cells.
const CELLS: [i32; 9] = [0, -1, 63, 64, -64, -65, 120, i32::MAX, i32::MIN];

fn written(alloc: Global, cells: &[i32]) -> Result<Bytes, Memory> {
    let mut out = Bytes::new(alloc);
    for cell in cells {
        write_cell(*cell, &mut out)?;
    }
    Ok(out)
}

/// Whether cells are written as these bytes.
fn are_written(alloc: Global, cells: &[i32], bytes: &[u8]) -> bool {
    match written(alloc, cells) {
        Ok(out) => out.as_slice() == bytes,
        Err(_) => false,
    }
}

/// Whether bytes are read as these cells.
fn are_read(alloc: Global, bytes: &[u8], cells: &[i32]) -> bool {
    let Ok(count) = u32::try_from(cells.len()) else {
        return false;
    };
    match read_cells(alloc, bytes, count) {
        Ok(read) => read.as_slice() == cells,
        Err(_) => false,
    }
}

/// Whether what is written of cells is read as them.
fn are_kept(alloc: Global, cells: &[i32]) -> bool {
    match written(alloc, cells) {
        Ok(bytes) => are_read(alloc, bytes.as_slice(), cells),
        Err(_) => false,
    }
}

#[test]
fn shortest_spellings(rt: HostRuntime) {
    for (cell, bytes) in SPELLINGS {
        assert!(rt; are_written(rt.alloc(), &[cell], bytes), "{cell}");
        assert!(rt; are_read(rt.alloc(), bytes, &[cell]), "{cell}");
    }
    assert!(rt; are_kept(rt.alloc(), &CELLS));
}

/// Longer spellings of cells.
const LONGER: [(&[u8], &[i32]); 6] = [
    (&[0x80, 0x00], &[0]),
    (&[0xFF, 0x7F], &[-1]),
    (&[0x80, 0x80, 0x80, 0x80, 0x05], &[5]),
    // The three high bits of the first of five groups are ignored.
    (&[0xF7, 0xFF, 0xFF, 0xFF, 0x7F], &[i32::MAX]),
    (&[0x8F, 0xFF, 0xFF, 0xFF, 0x7F], &[-1]),
    (&[], &[]),
];

#[test]
fn longer_spellings(rt: HostRuntime) {
    for (bytes, cells) in LONGER {
        assert!(rt; are_read(rt.alloc(), bytes, cells));
    }
}

/// Bytes that so many cells don't spell, the fault, and its number.
const REFUSED: [(&[u8], u32, CompactFault, u8); 9] = [
    (&[], 1, CompactFault::Short, 80),
    (&[0x01, 0x02], 3, CompactFault::Short, 80),
    (&[0x80], 1, CompactFault::OpenGroup, 81),
    (
        &[0x80, 0x80, 0x80, 0x80, 0x80],
        1,
        CompactFault::OpenGroup,
        81,
    ),
    (&[0x00, 0x80], 3, CompactFault::OpenGroup, 81),
    (
        &[0x80, 0x80, 0x80, 0x80, 0x80, 0x00],
        1,
        CompactFault::GroupTooLong,
        82,
    ),
    (&[0x00, 0x00], 1, CompactFault::TooMany, 83),
    (&[0x80], 0, CompactFault::TooMany, 83),
    (
        &[0x00, 0x80, 0x80, 0x80, 0x80, 0x80, 0x80],
        1,
        CompactFault::TooMany,
        83,
    ),
];

fn are_refused(alloc: Global, bytes: &[u8], count: u32, fault: CompactFault) -> bool {
    match read_cells(alloc, bytes, count) {
        Ok(_cells) => false,
        Err(found) => found == fault,
    }
}

#[test]
fn refusals(rt: HostRuntime) {
    for (bytes, count, fault, number) in REFUSED {
        assert!(rt; are_refused(rt.alloc(), bytes, count, fault), "{number}");
        assert!(rt; fault.number() == Some(number), "{number}");
    }
    assert!(rt; CompactFault::Memory.number().is_none());
}

/// Whether bytes fit, which are this many cells.
fn cells_fit(alloc: Global, bytes: &[u8], count: u32) -> Result<bool, CompactFault> {
    read_cells(alloc, bytes, count)?;
    Ok(fits(bytes, count))
}

/// Bytes, how many cells they are, and whether they fit.
const ROOMS: [(&[u8], u32, bool); 5] = [
    (&[], 0, true),
    (&[0x80, 0x78, 0x00, 0x2E, 0x80, 0x59, 0x30], 5, true),
    (&[0x80, 0x80, 0x80, 0x78], 1, true),
    (
        &[0x80, 0x80, 0x80, 0x80, 0x78, 0x00, 0x2E, 0x80, 0x59, 0x30],
        5,
        false,
    ),
    (&[0x00, 0x80, 0x80, 0x80, 0x80, 0x00], 2, true),
];

#[test]
fn rows_in_the_room_of_their_cells(rt: HostRuntime) {
    for (bytes, count, fit) in ROOMS {
        assert!(rt; cells_fit(rt.alloc(), bytes, count) == Ok(fit), "{count}");
    }
}
