ghost use Rattle.std.specs.Prelude.{◌≡◌, ◌+◌, ◌≤◌, ◌++◌, length, pos, replicate, IfOk};
ghost use Rattle.amx_compact.specs.Fits.{Fits};
ghost use Rattle.amx_compact.specs.Spelled.{SpelledAll};
ghost use Rattle.amx_format.specs.Faults.{row_of};
ghost use Rattle.amx_format.specs.File.{IsFile};
ghost use Rattle.amx_format.specs.Header.{header_of};
ghost use Rattle.amx_load.specs.Plain.{ArePlain};
ghost use Rattle.amx_ops.specs.Writable.{cells_limit};
ghost use Rattle.amx_ops.specs.declared.amx.Amx.{Amx};

use super::cells::{block_of, empty_block};
use amx_block::Block;
use amx_compact::fits;
use amx_format::{code_place, file_size, is_compact};
use amx_ops::Amx;
use pawn_base::Memory;
use std::alloc::Global;

/// A block with the code and the data of the file that an `Amx` was read from. Compact cells are
/// expanded in the block where each one's bytes end before its cell does.
pub fn block_of_file(alloc: Global, amx: &Amx, bytes: &[u8]) -> Result<Block, Memory>
    requires file { IsFile bytes.now amx.now }
    requires small { length amx.now.code + length amx.now.store + amx.now.room ≤ cells_limit }
    ensures code { IfOk result (λ block. block.code ≡ amx.now.code) }
    ensures memory { IfOk result (λ block.
        block.memory ≡ amx.now.store ++ replicate amx.now.room (pos 0)) }
{
    let row = row_of(bytes);
    if !is_compact(bytes) {
        plain_block(alloc, amx, row)
    } else if fits(row, file_cells(amx)) {
        packed_block(alloc, amx, row)
    } else {
        block_of(alloc, amx)
    }
}

/// The bytes of a file's code and data.
fn row_of(bytes: &[u8]) -> &[u8]
    requires { (amx : Amx) × IsFile bytes.now amx }
    ensures { result.now ≡ row_of bytes.now (header_of bytes.now) }
{
    let first = code_place(bytes) as usize;
    let end = file_size(bytes) as usize;
    &bytes[first..end]
}

/// How many cells code and data are.
fn file_cells(amx: &Amx) -> u32
    requires { length amx.now.code + length amx.now.store ≤ cells_limit }
    ensures { result ≡ length (amx.now.code ++ amx.now.store) }
{
    amx.code.len() as u32 + amx.store.len() as u32
}

fn plain_block(alloc: Global, amx: &Amx, row: &[u8]) -> Result<Block, Memory>
    requires plain { ArePlain (amx.now.code ++ amx.now.store) row.now }
    requires small { length amx.now.code + length amx.now.store + amx.now.room ≤ cells_limit }
    ensures code { IfOk result (λ block. block.code ≡ amx.now.code) }
    ensures memory { IfOk result (λ block.
        block.memory ≡ amx.now.store ++ replicate amx.now.room (pos 0)) }
{
    let mut block = empty_block(alloc, amx)?;
    block.load_bytes(row);
    Ok(block)
}

fn packed_block(alloc: Global, amx: &Amx, row: &[u8]) -> Result<Block, Memory>
    requires spelled { SpelledAll (amx.now.code ++ amx.now.store) row.now }
    requires fits { Fits row.now }
    requires small { length amx.now.code + length amx.now.store + amx.now.room ≤ cells_limit }
    ensures code { IfOk result (λ block. block.code ≡ amx.now.code) }
    ensures memory { IfOk result (λ block.
        block.memory ≡ amx.now.store ++ replicate amx.now.room (pos 0)) }
{
    let mut block = empty_block(alloc, amx)?;
    block.load_bytes(row);
    block.expand_from_end(row.len() as u32);
    Ok(block)
}
