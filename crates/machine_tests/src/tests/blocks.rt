use amx_block::Block;
use std::alloc::Global;

/// Reads a cell of the memory.
fn read(block: &Block, at: u32) -> Option<i32> {
    if at % 4 == 0 && at < block.top() {
        Some(block.read(at))
    } else {
        None
    }
}

/// Writes a cell of the memory, where it has one there.
fn write(block: &mut Block, at: u32, value: i32) {
    let top = block.top();
    if at % 4 == 0 && at < top {
        block.write(at, value);
    }
}

/// Reads a byte of the memory.
fn read_byte(block: &Block, at: u32) -> Option<u8> {
    if at < block.top() {
        Some(block.read_byte(at))
    } else {
        None
    }
}

/// Writes a byte of the memory, where it has one there.
fn write_byte(block: &mut Block, at: u32, byte: u8) {
    let top = block.top();
    if at < top {
        block.write_byte(at, byte);
    }
}

/// Fills cells of the memory, where it has so many there.
fn fill(block: &mut Block, at: u32, count: u32, value: i32) {
    let top = block.top();
    if at % 4 == 0 && at <= top && count <= (top - at) / 4 {
        block.fill(at, count, value);
    }
}

/// Copies bytes within the memory, where it has so many at both places.
fn copy(block: &mut Block, from: u32, to: u32, count: u32) {
    let top = block.top();
    if count <= top && from <= top - count && to <= top - count {
        block.copy(from, to, count);
    }
}

/// Writes a cell of a part that is lent.
fn write_in_part(block: &mut Block, at: u32, count: u32, index: usize, value: i32) {
    let top = block.top();
    if at % 4 == 0 && at <= top && count <= (top - at) / 4 {
        let part = block.part_mut(at, count);
        if index < part.len() {
            part[index] = value;
        }
    }
}

/// Three cells of data with room for five, behind a code of two cells. The data are the bytes 0 to
/// 11.
fn small(alloc: Global) -> Option<Block> {
    let mut block = Block::new(alloc, 2, 3, 5).ok()?;
    write(&mut block, 0, 0x0302_0100);
    write(&mut block, 4, 0x0706_0504);
    write(&mut block, 8, 0x0B0A_0908);
    Some(block)
}

/// A cell of code before it is set and then, and the first cell of memory.
fn code_cells(alloc: Global) -> Option<(i32, i32, Option<i32>)> {
    let mut block = Block::new(alloc, 2, 3, 5).ok()?;
    let before = block.code(4);
    block.set_code(4, -7);
    Some((before, block.code(4), read(&block, 0)))
}

#[test]
fn cells_of_code(rt: HostRuntime) {
    assert!(rt; code_cells(rt.alloc()) == Some((0, -7, Some(0))));
}

/// Whether the memory has these cells.
fn has_cells(block: &Block, cells: &[i32; 8]) -> bool {
    for (place, cell) in cells.iter().enumerate() {
        if read(block, 4 * place as u32) != Some(*cell) {
            return false;
        }
    }
    true
}

/// Whether cells are filled, and one of a part is written.
fn cells_are_set(alloc: Global) -> Option<bool> {
    let mut block = small(alloc)?;
    fill(&mut block, 12, 2, i32::MIN);
    write_in_part(&mut block, 4, 2, 1, 5);
    let wanted = [0x0302_0100, 0x0706_0504, 5, i32::MIN, i32::MIN, 0, 0, 0];
    Some(block.top() == 32 && has_cells(&block, &wanted))
}

#[test]
fn cells_of_memory(rt: HostRuntime) {
    assert!(rt; cells_are_set(rt.alloc()) == Some(true));
}

/// Whether the memory begins with these bytes.
fn has_bytes(block: &Block, bytes: &[u8; 12]) -> bool {
    for (at, byte) in bytes.iter().enumerate() {
        if read_byte(block, at as u32) != Some(*byte) {
            return false;
        }
    }
    true
}

/// The last cell, once its first byte is written, and then its last one.
fn last_cells(block: &mut Block) -> (Option<i32>, Option<i32>) {
    write_byte(block, 31, 255);
    let first = read(block, 28);
    write_byte(block, 28, 1);
    (first, read(block, 28))
}

fn bytes_are_set(alloc: Global) -> Option<bool> {
    let mut block = small(alloc)?;
    let begins = has_bytes(&block, &[0, 1, 2, 3, 4, 5, 6, 7, 8, 9, 10, 11]);
    Some(begins && last_cells(&mut block) == (Some(-16_777_216), Some(-16_777_215)))
}

#[test]
fn bytes_of_cells(rt: HostRuntime) {
    assert!(rt; bytes_are_set(rt.alloc()) == Some(true));
}

/// Copies between places that overlap and that don't, with the first 12 bytes that come of it.
const COPIES: [((u32, u32, u32), [u8; 12]); 8] = [
    ((0, 0, 12), [0, 1, 2, 3, 4, 5, 6, 7, 8, 9, 10, 11]),
    ((0, 4, 8), [0, 1, 2, 3, 0, 1, 2, 3, 4, 5, 6, 7]),
    ((4, 0, 8), [4, 5, 6, 7, 8, 9, 10, 11, 8, 9, 10, 11]),
    ((0, 3, 8), [0, 1, 2, 0, 1, 2, 3, 4, 5, 6, 7, 11]),
    ((3, 0, 8), [3, 4, 5, 6, 7, 8, 9, 10, 8, 9, 10, 11]),
    ((1, 9, 3), [0, 1, 2, 3, 4, 5, 6, 7, 8, 1, 2, 3]),
    ((11, 0, 1), [11, 1, 2, 3, 4, 5, 6, 7, 8, 9, 10, 11]),
    ((5, 7, 0), [0, 1, 2, 3, 4, 5, 6, 7, 8, 9, 10, 11]),
];

/// Whether a copy leads to these bytes.
fn copies_so(alloc: Global, places: (u32, u32, u32), bytes: &[u8; 12]) -> Option<bool> {
    let (from, to, count) = places;
    let mut block = small(alloc)?;
    copy(&mut block, from, to, count);
    Some(has_bytes(&block, bytes))
}

#[test]
fn copies_as_if_all_were_read_first(rt: HostRuntime) {
    for (places, bytes) in COPIES {
        assert!(rt; copies_so(rt.alloc(), places, &bytes) == Some(true));
    }
}

/// How many cells at two places are equal, where the memory has so many at both.
fn equal_cells(block: &Block, at: u32, to: u32, count: u32) -> Option<u32> {
    let top = block.top();
    if at % 4 != 0 || to % 4 != 0 || at > top || to > top {
        return None;
    }
    if count > (top - at) / 4 || count > (top - to) / 4 {
        return None;
    }
    Some(block.equal_cells(at, to, count))
}

/// The cells 1 2 3 1 2 4 compared: the first three with the others, then the last of each, then
/// none, and each with itself.
fn compared(alloc: Global) -> Option<[Option<u32>; 4]> {
    let mut block = Block::new(alloc, 1, 6, 0).ok()?;
    for (place, cell) in [1, 2, 3, 1, 2, 4].into_iter().enumerate() {
        write(&mut block, 4 * place as u32, cell);
    }
    Some([
        equal_cells(&block, 0, 12, 3),
        equal_cells(&block, 8, 20, 1),
        equal_cells(&block, 8, 20, 0),
        equal_cells(&block, 0, 0, 6),
    ])
}

#[test]
fn cells_that_are_equal(rt: HostRuntime) {
    assert!(rt; compared(rt.alloc()) == Some([Some(2), Some(0), Some(0), Some(6)]));
}

/// The cell of code and those of memory, once seven bytes are loaded.
fn seven_bytes(alloc: Global) -> Option<(i32, Option<i32>, Option<i32>)> {
    let mut block = Block::new(alloc, 1, 1, 1).ok()?;
    block.write(0, -1);
    block.load_bytes(&[1, 2, 3, 0x84, 5, 6, 7]);
    Some((block.code(0), read(&block, 0), read(&block, 4)))
}

#[test]
fn bytes_are_loaded(rt: HostRuntime) {
    let wanted = (-2_080_177_663, Some(-16_316_923), Some(0));
    assert!(rt; seven_bytes(rt.alloc()) == Some(wanted));
}

/// The top of a large block, a byte that is copied from its last cell, and that cell once all are
/// filled.
fn large(alloc: Global) -> Option<(u32, Option<u8>, Option<i32>)> {
    let mut block = Block::new(alloc, 1_000, 1_000_000, 2_000_000).ok()?;
    write(&mut block, 11_999_996, 9);
    copy(&mut block, 11_999_996, 3, 4);
    let copied = read_byte(&block, 3);
    fill(&mut block, 0, 3_000_000, 1);
    Some((block.top(), copied, read(&block, 11_999_996)))
}

#[test]
fn a_large_block(rt: HostRuntime) {
    assert!(rt; large(rt.alloc()) == Some((12_000_000, Some(9), Some(1))));
}
