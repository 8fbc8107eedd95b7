ghost use Rattle.std.specs.Prelude.{◌≡◌, ◌+◌, ◌≤◌, length, IfOk};
ghost use Rattle.pawn_meaning.specs.ProgramNames.{HasNames};
ghost use Rattle.pawn_meaning.specs.Valid.{IsValid};
ghost use Rattle.pawn_meaning.specs.View.{program_view};
ghost use Rattle.pawn_meaning.specs.Weight.{lean};
ghost use Rattle.pawn_meaning.specs.Limits.{IsWithinLimits};
ghost use Rattle.gen_agrees.specs.Agrees.{Agrees};
ghost use Rattle.gen_laws.specs.FileOf.{file_of};

use super::addresses::object_addresses;
use super::files::file;
use super::functions::functions;
use super::source::Source;
use amx_ops::{Amx, Op};
use gen_expr::Builder;
use pawn_base::Memory;
use pawn_meaning::Program;
use std::alloc::Global;

/// The file of a program. It has at most two cells of code more than the program's lean weight. Of a
/// valid program within the limits, with names as those of a source, whatever it does is what the
/// program means, both ways.
pub fn generate(alloc: Global, program: &Program) -> Result<Amx, Memory>
    ensures file { IfOk result (λ amx. amx ≡ file_of (program_view program.now)) }
    ensures lean { IfOk result (λ amx. length amx.code ≤ lean (program_view program.now) + 2) }
    ensures agrees { IfOk result (λ amx. let source = program_view program.now in
        IsValid source → IsWithinLimits source → HasNames source → Agrees source amx) }
{
    let places = object_addresses(alloc, program)?;
    let source = Source {
        alloc,
        program,
        places: &places,
    };
    let halted = Builder::new(alloc).put(Op::Halt, 0)?;
    let (code, entries) = functions(program.functions.as_slice(), &source, halted)?;
    file(alloc, program, &code, entries.as_slice())
}
