ghost use Rattle.std.specs.Prelude.{◌≡◌, Err, IfOk};
ghost use Rattle.host_script.specs.Ranges.{IsScript};
ghost use Rattle.amx_ops.specs.declared.amx.Amx.{Amx};
ghost use Rattle.pawn_outside.specs.OnlyRead.{OnlyRead};
ghost use Rattle.pawn_outside.specs.Said.{Said};
ghost use Rattle.command_parts.specs.ValidFile.{IsValidFile};
ghost use Rattle.command_parts.specs.Calls.{CommandCalls};
ghost use Rattle.command_parts.specs.Told.{with_faults};
ghost use Rattle.commands.specs.Lines.{warning_lines};
ghost use Rattle.commands.specs.Goes.{Goes, Makes, Prepares, behind};
ghost use Rattle.commands.specs.RunsFile.{RunsFile};

use super::lines::say_warnings;
use super::natives::natives;
use super::play::run_file;
use super::sources::compiled_source;
use amx_format::Encoding;
use command_parts::{GoWords, Status, Stop, put, tell_stop, valid_file};
use pawn_front::Compiled;
use pawn_outside::{Files, Sink, SinkFault};
use script_reader::Script;
use std::alloc::Global;

/// What a source is compiled to, and the script of its natives.
#[derive(Drop)]
struct Prepared {
    compiled: Compiled,
    script: Script,
}

/// Compiles a source, reads a script, puts the source's file, and runs the bytes that were put,
/// going on behind sleeps.
pub fn go<F: Files, S: Sink>(alloc: Global, words: &GoWords, files: &mut F, out: &mut S) -> Status
    ensures answer { Goes (with_faults (Said S.taken S.faults S.has_room)) words.now
        (F.held files.old) (F.held files.new) (out.old, F.faults files.old)
        (out.new, F.faults files.new) result }
    ensures calls { CommandCalls F.faults F.never_fails files.old files.new result }
{
    match prepare(alloc, words, files) {
        Ok(prepared) => make(alloc, &prepared, words, files, out),
        Err(stop) => tell_stop(stop, out),
    }
}

/// Compiles a source, then reads a script.
fn prepare<F: Files>(alloc: Global, words: &GoWords, files: &mut F) -> Result<Prepared, Stop>
    ensures calls { OnlyRead F.held F.faults F.never_fails files.old files.new
        (result ≡ Err Stop.FileFault) }
    ensures answer { Prepares (F.held files.old) words.now result }
    ensures ranges { IfOk result (λ it. IsScript it.script) }
{
    let compiled = compiled_source(alloc, words.src.as_str(), Encoding::Plain, files)?;
    let script = natives(alloc, &words.script, files)?;
    Ok(Prepared { compiled, script })
}

/// Puts a file, tells the warnings, and runs the bytes that were put.
fn make<F: Files, S: Sink>(
    alloc: Global,
    prepared: &Prepared,
    words: &GoWords,
    files: &mut F,
    out: &mut S,
) -> Status
    requires script { IsScript prepared.now.script }
    ensures answer { Makes (with_faults (Said S.taken S.faults S.has_room)) words.now prepared.now
        (F.held files.old) (F.held files.new) (out.old, F.faults files.old)
        (out.new, F.faults files.new) result }
    ensures calls { CommandCalls F.faults F.never_fails files.old files.new result }
{
    match put(
        words.amx.as_str(),
        prepared.compiled.bytes.as_slice(),
        files,
    ) {
        Ok(()) => tell_and_run(alloc, prepared, words, out),
        Err(stop) => tell_stop(stop, out),
    }
}

/// Writes the lines of the warnings, and runs the file behind them.
fn tell_and_run<S: Sink>(alloc: Global, prepared: &Prepared, words: &GoWords, out: &mut S) -> Status
    requires script { IsScript prepared.now.script }

    // Of bytes that are a valid file.
    ensures answer { (amx : Amx) → IsValidFile prepared.now.compiled.bytes amx →
        RunsFile (behind (warning_lines prepared.now.compiled.warnings)
        (Said S.taken S.faults S.has_room)) amx prepared.now.script words.now out.old out.new
        result }
    ensures fault { ¬ (result ≡ Status.FileFault) }
{
    match say_warnings(prepared.compiled.warnings.as_slice(), out) {
        Ok(()) => run_bytes(alloc, prepared, words, out),
        Err(SinkFault) => Status::SinkFault,
    }
}

/// Runs the file that bytes are.
fn run_bytes<S: Sink>(alloc: Global, prepared: &Prepared, words: &GoWords, out: &mut S) -> Status
    requires script { IsScript prepared.now.script }

    // Of bytes that are a valid file.
    ensures answer { (amx : Amx) → IsValidFile prepared.now.compiled.bytes amx →
        RunsFile (Said S.taken S.faults S.has_room) amx prepared.now.script words.now out.old
        out.new result }
    ensures fault { ¬ (result ≡ Status.FileFault) }
{
    let bytes = prepared.compiled.bytes.as_slice();
    match valid_file(alloc, bytes) {
        Ok(file) => run_file(alloc, file, bytes, &prepared.script, words, out),
        Err(stop) => tell_stop(stop, out),
    }
}
