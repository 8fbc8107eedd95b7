ghost use Rattle.std.specs.Prelude.{◌≡◌, ◌++◌, pos, replicate, IfOk};
ghost use Rattle.amx_format.specs.File.{IsFile};
ghost use Rattle.amx_ops.specs.Trace.{loaded};

use super::registers::Core;
use amx_block::Block;
use amx_load::{block_of, block_of_file};
use amx_verify::Verified;
use pawn_base::Memory;
use std::alloc::Global;

impl Core {
    /// A file's first state: the data and then zeros, HEA at the data's end, and STK at the top.
    pub fn load(alloc: Global, verified: Verified) -> Result<Core, Memory>
        ensures { IfOk result (λ core. core ≡ record {
          amx = verified;
          state = loaded verified verified.room;
        }) }
    {
        let block = block_of(alloc, verified.amx())?;
        Ok(Core::first(verified, block))
    }

    /// The same from the bytes that the file was read from. Compact cells are expanded in the
    /// core's own memory where they can be.
    pub fn load_file(alloc: Global, verified: Verified, bytes: &[u8]) -> Result<Core, Memory>
        requires { IsFile bytes.now verified }
        ensures { IfOk result (λ core. core ≡ record {
          amx = verified;
          state = loaded verified verified.room;
        }) }
    {
        let block = block_of_file(alloc, verified.amx(), bytes)?;
        Ok(Core::first(verified, block))
    }

    /// The first state over a block that holds the file's code and data.
    fn first(verified: Verified, block: Block) -> Core
        requires code { block.code ≡ verified.code }
        requires memory { block.memory ≡ verified.store ++ replicate verified.room (pos 0) }
        ensures { result ≡ record {
          amx = verified;
          state = loaded verified verified.room;
        } }
    {
        let amx = verified.amx();
        let hea = 4 * amx.store.len() as u32;
        let stp = hea + 4 * amx.room;
        Core {
            pri: 0,
            alt: 0,
            frm: 0,
            cip: 0,
            stk: stp,
            hea,
            stp,
            block,
            verified,
        }
    }
}
