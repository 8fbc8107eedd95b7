ghost use Rattle.std.specs.Prelude.{◌≡◌, Err};
ghost use Rattle.pawn_outside.specs.OnlyRead.{OnlyRead};
ghost use Rattle.pawn_pre.specs.Bounds.{IsBounded};
ghost use Rattle.pawn_meaning.specs.View.{program_view};
ghost use Rattle.pawn_front.specs.Checks.{Checks, IsNamedOf, Refuses, RefusesLines};
ghost use Rattle.pawn_front.specs.Compiled.{Compiles, MakesFile};
ghost use Rattle.types_laws.specs.GoodSources.{IsGoodProgram};
ghost use Rattle.pawn_front.specs.Sourced.{Sources, SourcesLines};

use super::checking::{Named, check_lines};
use super::compiled::Compiled;
use super::fault::CompileFault;
use super::files::{file_name, warnings};
use super::good::{are_byte_lines, programs_of_sources_are_good};
use super::making::file_bytes;
use super::sourced::Sourced;
use amx_format::Encoding;
use pawn_base::{Bytes, Memory};
use pawn_cells::Place;
use pawn_check::{CheckFault, Checked};
use pawn_outside::Files;
use pawn_pre::{Lines, preprocess};
use std::alloc::Global;

/// Compiles the source of a name, over the files that it includes: its program, and the bytes of
/// the program's file, plain or compact.
///
/// # Errors
///
/// Those of `program`.
pub fn compile<F: Files>(
    alloc: Global,
    name: &str,
    files: &mut F,
    encoding: Encoding,
) -> Result<Compiled, CompileFault>
    // The file of the program that the source means, or the first layer's fault.
    ensures answer { Compiles (F.held files.old) name.now encoding result }

    // Nothing held changes, and `Files` comes only where the files failed.
    ensures files { OnlyRead F.held F.faults F.never_fails files.old files.new
        (result ≡ Err CompileFault.Files) }
{
    match program(alloc, name, files) {
        Ok(sourced) => compile_program(alloc, sourced, encoding),
        Err(fault) => Err(fault),
    }
}

/// The program of the source of a name, over the files that it includes: its lines, their tokens,
/// the tree of these, and its typed program. Each layer is asked only where the one before it
/// accepted.
///
/// # Errors
///
/// `Refused` where the source breaks a rule, with the rule's number, the name of the file and the
/// line: 1 to 12 of the preprocessor, 20 to 26 of tokens, 30 and 31 of the tree, 40 to 71 of names
/// and types. `NoSource` where the source isn't held, `TooLarge` where a file that is read has more
/// than 16,777,216 bytes, `Files` where the files failed, `Memory` for want of memory.
pub fn program<F: Files>(alloc: Global, name: &str, files: &mut F) -> Result<Sourced, CompileFault>
    // The program that the source means, or the first layer's fault.
    ensures answer { Sources (F.held files.old) name.now result }

    // Nothing held changes, and `Files` comes only where the files failed.
    ensures files { OnlyRead F.held F.faults F.never_fails files.old files.new
        (result ≡ Err CompileFault.Files) }
{
    let lines = preprocess(alloc, name, files)?;
    program_of(alloc, &lines)
}

/// The program of lines.
fn program_of(alloc: Global, lines: &Lines) -> Result<Sourced, CompileFault>
    requires { IsBounded lines.now }
    ensures { SourcesLines lines.now result }
{
    // For the proof alone: the program is as the generator asks.
    programs_of_sources_are_good();
    are_byte_lines(lines.lines.as_slice());
    match check_lines(alloc, lines) {
        Ok(named) => with_warnings(alloc, lines, named),
        Err(fault) => Err(fault_in(alloc, lines, fault)),
    }
}

/// The fault that one of lines is.
fn fault_in(alloc: Global, lines: &Lines, fault: CheckFault) -> CompileFault
    requires { Checks lines.now (Err fault) }
    ensures { RefusesLines lines.now result }
{
    match fault {
        CheckFault::Source { kind, place } => refusal(alloc, lines, kind, place),
        CheckFault::Memory => CompileFault::Memory,
    }
}

/// The refusal of a rule that is broken at a place, or want of memory for its file's name.
fn refusal(alloc: Global, lines: &Lines, kind: u8, place: Place) -> CompileFault
    ensures { Refuses lines.now.files kind place result }
{
    match Bytes::from_slice(alloc, file_name(lines.files.as_slice(), place.file)) {
        Ok(file) => CompileFault::Refused {
            kind,
            file,
            line: place.line,
        },
        Err(Memory) => CompileFault::Memory,
    }
}

/// A program of lines, with its warnings by the names of the files.
fn with_warnings(alloc: Global, lines: &Lines, named: Named) -> Result<Sourced, CompileFault>
    requires named { IsNamedOf lines.now named }
    requires good { IsGoodProgram (program_view named.checked.program) }
    ensures { SourcesLines lines.now result }
{
    let Named { checked, names } = named;
    let Checked {
        program,
        warnings: places,
    } = checked;
    match warnings(alloc, lines.files.as_slice(), places.as_slice()) {
        Ok(warnings) => Ok(Sourced {
            program,
            warnings,
            names,
        }),
        Err(Memory) => Err(CompileFault::Memory),
    }
}

/// The file of a source's program, with the source's warnings.
fn compile_program(
    alloc: Global,
    sourced: Sourced,
    encoding: Encoding,
) -> Result<Compiled, CompileFault>
    requires { IsGoodProgram (program_view sourced.program) }
    ensures { MakesFile (program_view sourced.program) sourced.warnings encoding result }
{
    let Sourced {
        program,
        warnings,
        names,
    } = sourced;
    drop(names);
    match file_bytes(alloc, &program, encoding) {
        Ok(bytes) => Ok(Compiled { bytes, warnings }),
        Err(Memory) => Err(CompileFault::Memory),
    }
}
