ghost use Rattle.std.specs.Prelude.{◌≡◌, ◌+◌, ◌<◌, ◌≤◌, ◌++◌, length, pos, drop, replicate, IfOk};
ghost use Rattle.amx_block.specs.Contents.{zeros};
ghost use Rattle.amx_ops.specs.Writable.{cells_limit};

use amx_block::Block;
use amx_ops::Amx;
use pawn_base::Memory;
use std::alloc::Global;

/// A block with a file's code and data.
pub fn block_of(alloc: Global, amx: &Amx) -> Result<Block, Memory>
    requires { length amx.now.code + length amx.now.store + amx.now.room ≤ cells_limit }
    ensures code { IfOk result (λ block. block.code ≡ amx.now.code) }
    ensures memory { IfOk result (λ block.
        block.memory ≡ amx.now.store ++ replicate amx.now.room (pos 0)) }
{
    let code = amx.code.as_slice();
    let store = amx.store.as_slice();
    let mut block = empty_block(alloc, amx)?;
    put_code(&mut block, code);
    put_store(&mut block, store);
    Ok(block)
}

/// A block for a file's code, its data, and the room behind them.
pub fn empty_block(alloc: Global, amx: &Amx) -> Result<Block, Memory>
    requires { length amx.now.code + length amx.now.store + amx.now.room ≤ cells_limit }
    ensures { IfOk result (λ block. block ≡
        zeros (length amx.now.code) (length amx.now.store) amx.now.room) }
{
    Block::new(
        alloc,
        amx.code.len() as u32,
        amx.store.len() as u32,
        amx.room,
    )
}

fn put_code(block: &mut Block, code: &[i32])
    requires same { length code.now ≡ length block.old.code }
    requires small { length code.now ≤ cells_limit }
    ensures { block.new ≡ record block.old { code = code.now } }
{
    for place in 0..code.len() {
        block.set_code(4 * place as u32, code[place]);
    }
}

fn put_store(block: &mut Block, store: &[i32])
    requires { length store.now ≤ length block.old.memory }
    ensures { block.new ≡ record block.old {
      memory = store.now ++ drop (length store.now) block.old.memory;
    } }
{
    // For the prover alone: by its clause each address fits.
    let _ = block.top();
    for place in 0..store.len() {
        block.write(4 * place as u32, store[place]);
    }
}
