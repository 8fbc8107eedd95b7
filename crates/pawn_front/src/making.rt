ghost use Rattle.std.specs.Prelude.{IfOk};
ghost use Rattle.pawn_meaning.specs.View.{program_view};
ghost use Rattle.pawn_front.specs.Compiled.{HasFile};
ghost use Rattle.types_laws.specs.GoodSources.{IsGoodProgram};

use amx_format::{Encoding, write};
use gen_module::generate;
use pawn_base::{Bytes, Memory};
use pawn_meaning::Program;
use std::alloc::Global;

/// The bytes of a program's file.
pub fn file_bytes(alloc: Global, program: &Program, encoding: Encoding) -> Result<Bytes, Memory>
    requires { IsGoodProgram (program_view program.now) }
    ensures { IfOk result (HasFile (program_view program.now) encoding) }
{
    let amx = generate(alloc, program)?;
    write(alloc, &amx, encoding)
}
