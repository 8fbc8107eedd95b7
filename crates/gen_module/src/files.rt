ghost use Rattle.std.specs.Prelude.{◌≡◌, ◌+◌, ◌≤◌, ℕ, length, IfOk};
ghost use Rattle.pawn_meaning.specs.ProgramNames.{HasNames};
ghost use Rattle.pawn_meaning.specs.Valid.{IsValid};
ghost use Rattle.pawn_meaning.specs.View.{program_view};
ghost use Rattle.pawn_meaning.specs.Limits.{IsWithinLimits};
ghost use Rattle.pawn_meaning.specs.Weight as weights;
ghost use Rattle.gen_agrees.specs.Agrees.{Agrees};
ghost use Rattle.gen_expr.specs.Built.{with_items};
ghost use Rattle.gen_module.specs.Starts.{Finds};
ghost use Rattle.gen_laws.specs.FileCode.{entry_of, program_items};
ghost use Rattle.gen_laws.specs.FileOf.{file_of};
ghost use Rattle.gen_module.specs.Linked.{nothing};
ghost use Rattle.gen_module.specs.Records.{main_with};

use super::cells::first_cells;
use super::links::linked;
use super::records::{natives, publics, tags};
use super::starts::start_at;
use super::states::states_fit;
use amx_ops::Amx;
use gen_expr::Builder;
use gen_laws::programs_have_files;
use pawn_base::{List, Memory};
use pawn_meaning::Program;
use std::alloc::Global;

/// The file of a program, from its code, in which the calls still wait for their functions, and
/// from the addresses of the functions. It has at most two cells of code more than the lean weight.
/// Of a valid program within the limits, with names as those of a source, it does what the program
/// means.
pub fn file(alloc: Global, program: &Program, b: &Builder, entries: &[i32]) -> Result<Amx, Memory>
    requires code { b.now ≡ with_items (program_items (program_view program.now)) nothing }
    requires entries { Finds (entry_of (program_view program.now)) entries.now }
    ensures file { IfOk result (λ amx. amx ≡ file_of (program_view program.now)) }
    ensures lean { IfOk result (λ amx.
        length amx.code ≤ weights.lean (program_view program.now) + 2) }
    ensures agrees { IfOk result (λ amx. let source = program_view program.now in
        IsValid source → IsWithinLimits source → HasNames source → Agrees source amx) }
{
    // The law of all such files, by which `agrees` follows from `file`.
    programs_have_files();
    states_fit(program.automata.as_slice())?;
    let amx = join_parts(alloc, program, b, entries)?;
    Ok(amx)
}

/// Where main is, or -1.
fn main_address(main: Option<u32>, entries: &[i32]) -> Result<i32, Memory>
    ensures { (entry : ℕ → ℕ) → Finds entry entries.now →
        IfOk result (λ x. x ≡ main_with entry main) }
{
    match main {
        Some(f) => start_at(f, entries),
        None => Ok(-1),
    }
}

/// A whole number as a count: a negative one counts nothing.
fn counted(n: i32) -> u32
    ensures { result ≡ weights.counted n }
{
    if n < 0 { 0 } else { n as u32 }
}

/// The code with its calls led, the data and the tables of a program.
fn join_parts(alloc: Global, program: &Program, b: &Builder, entries: &[i32]) -> Result<Amx, Memory>
    requires code { b.now ≡ with_items (program_items (program_view program.now)) nothing }
    requires entries { Finds (entry_of (program_view program.now)) entries.now }
    ensures { IfOk result (λ amx. amx ≡ file_of (program_view program.now)) }
{
    let code = linked(alloc, b, entries)?;
    let store = first_cells(alloc, program)?;
    let entry = main_address(program.entry, entries)?;
    let publics = publics(alloc, program.publics.as_slice(), entries)?;
    let natives = natives(alloc, program.natives.as_slice())?;
    let tags = tags(alloc, program.tags.as_slice())?;
    Ok(Amx {
        flags: 0,
        version: 8,
        code,
        store,
        room: counted(program.dynamic),
        entry,
        publics,
        natives,
        libraries: List::new(alloc),
        variables: List::new(alloc),
        tags,
    })
}
