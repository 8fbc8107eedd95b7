ghost use Rattle.std.specs.Prelude.{◌≡◌, ◌+◌, ◌≤◌, length};
ghost use Rattle.amx_format.specs.File.{IsFile};
ghost use Rattle.amx_ops.specs.Writable.{cells_limit};

use super::base::{changed, compact_main, empty_main, every_compact, every_table};
use amx_block::Block;
use amx_format::read;
use amx_load::block_of_file;
use amx_ops::Amx;
use std::alloc::{AllocError, Global};
use std::test::Fail;

/// Whether the code of a file's block is these cells, over and over.
fn has_code(block: &Block, amx: &Amx, cells: &[i32]) -> bool
    requires same { block.now.code ≡ amx.now.code }
    requires small { length amx.now.code ≤ cells_limit }
{
    let mut rest = cells.iter();
    for place in 0..amx.code.len() {
        let wanted = match rest.next() {
            Some(cell) => *cell,
            None => {
                rest = cells.iter();
                match rest.next() {
                    Some(cell) => *cell,
                    None => return false,
                }
            }
        };
        if block.code(4 * place as u32) != wanted {
            return false;
        }
    }
    true
}

/// Whether the memory is these cells and then zeros.
fn has_memory(block: &Block, cells: &[i32]) -> bool {
    let memory = block.part(0, block.top() / 4);
    if memory.len() < cells.len() {
        return false;
    }
    let (data, room) = memory.split_at(cells.len());
    data == cells && room.iter().all(|cell| *cell == 0)
}

/// How many cells a file's block has as its code, where these are its cells.
fn loads(alloc: Global, amx: &Amx, bytes: &[u8], code: &[i32], data: &[i32]) -> Option<usize>
    requires file { IsFile bytes.now amx.now }
    requires small { length amx.now.code + length amx.now.store + amx.now.room ≤ cells_limit }
{
    let block = block_of_file(alloc, amx, bytes).ok()?;
    if has_code(&block, amx, code) && has_memory(&block, data) {
        Some(amx.code.len())
    } else {
        None
    }
}

/// The same for the bytes of a file.
fn loads_file(alloc: Global, bytes: &[u8], code: &[i32], data: &[i32]) -> Option<usize> {
    match read(alloc, bytes) {
        Ok(amx) => loads(alloc, &amx, bytes, code, data),
        Err(_) => None,
    }
}

/// The code of an empty main.
const MAIN: [i32; 5] = [120, 0, 46, 89, 48];

/// The cells of the file with records in each table.
const EVERY_CODE: [i32; 7] = [120, 0, 130, 1, 8, -7, 0];

const EVERY_DATA: [i32; 9] = [-1, 0, i32::MAX, i32::MIN, 5, 6, 7, 8, 9];

#[test]
fn plain_cells(rt: HostRuntime) {
    assert!(rt; loads_file(rt.alloc(), empty_main(), &MAIN, &[]) == Some(5));
    assert!(rt; loads_file(rt.alloc(), every_table(), &EVERY_CODE, &EVERY_DATA) == Some(7));
}

#[test]
fn compact_cells(rt: HostRuntime) -> Result<(), Fail> {
    assert!(rt; loads_file(rt.alloc(), compact_main(), &MAIN, &[]) == Some(5));
    let every = every_compact(rt.alloc())?;
    let code = loads_file(rt.alloc(), every.as_slice(), &EVERY_CODE, &EVERY_DATA);
    assert!(rt; code == Some(7));
    Ok(())
}

/// The file of an empty main whose first cell takes five bytes, so that it can't be expanded from
/// the end.
fn long_main(alloc: Global) -> Result<Vec<u8>, AllocError> {
    let mut bytes = changed(alloc, compact_main(), &[0, 70])?;
    bytes.truncate(60);
    bytes.extend_from_slice(&[0x80, 0x80, 0x80, 0x80, 0x78, 0x00, 0x2E, 0x80, 0x59, 0x30])?;
    Ok(bytes)
}

#[test]
fn cells_that_do_not_fit(rt: HostRuntime) -> Result<(), Fail> {
    let long = long_main(rt.alloc())?;
    assert!(rt; loads_file(rt.alloc(), long.as_slice(), &MAIN, &[]) == Some(5));
    Ok(())
}

/// Five cells in ten bytes.
const FIVE: [i32; 5] = [5, 128, -1, i32::MAX, -64];

const FIVE_BYTES: [u8; 10] = [5, 0x81, 0x00, 0x7F, 0x87, 0xFF, 0xFF, 0xFF, 0x7F, 0x40];

/// A file with a million cells of code in two million bytes: other places of its header are the
/// size, the data, the heap and the top.
fn million(alloc: Global) -> Result<Vec<u8>, AllocError> {
    let places = [
        0, 0xBC, 1, 0x84, 2, 0x1E, 16, 0x3C, 17, 0x09, 18, 0x3D, 20, 0x3C, 21, 0x09, 22, 0x3D, 24,
        0xDC, 25, 0x18, 26, 0x3D,
    ];
    let mut bytes = changed(alloc, compact_main(), &places)?;
    bytes.truncate(60);
    for _ in 0..200_000 {
        bytes.extend_from_slice(&FIVE_BYTES)?;
    }
    Ok(bytes)
}

#[test]
fn a_million_cells(rt: HostRuntime) -> Result<(), Fail> {
    let bytes = million(rt.alloc())?;
    assert!(rt; loads_file(rt.alloc(), bytes.as_slice(), &FIVE, &[]) == Some(1_000_000));
    Ok(())
}
