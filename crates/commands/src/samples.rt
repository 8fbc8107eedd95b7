ghost use Rattle.std.specs.Prelude.{◌≡◌, Err, IfOk, []};
ghost use Rattle.pawn_outside.specs.Said.{Said};
ghost use Rattle.host_script.specs.Ranges.{IsScript};
ghost use Rattle.host_script.specs.Script.{plain};
ghost use Rattle.amx_ops.specs.declared.amx.Amx.{Amx};
ghost use Rattle.amx_format.specs.File.{IsFile};
ghost use Rattle.amx_format.specs.declared.encoding.Encoding.TheVariants.{Plain};
ghost use Rattle.command_parts.specs.Calls.{CommandCalls};
ghost use Rattle.command_parts.specs.Told.{with_faults};
ghost use Rattle.command_parts.specs.ValidFile.{IsValidFile};
ghost use Rattle.commands.specs.Made.{IsMade};
ghost use Rattle.commands.specs.Samples.{MakesSample, RunsSample, Samples, sample_files};
ghost use Rattle.commands.specs.Samples.{sample_name};

use super::counted::tell_counted;
use super::natives::plain;
use super::play::run_ready;
use super::ready_file::make_ready;
use super::sources::compiled_source;
use amx_format::Encoding;
use amx_verify::Verified;
use command_parts::{DEFAULT_STEPS, SampleWords, Status, Stop, put, tell_stop, valid_file};
use host_script::Script;
use pawn_base::Memory;
use pawn_front::Compiled;
use pawn_outside::{Files, MemoryFiles, Sink};
use pawn_sample::sample_source;
use std::alloc::Global;

/// Makes the source of a sample, compiles it, puts its file, runs the bytes that were put under the
/// plain script, and tells the end, how many cells the code has, and how many steps were done.
pub fn sample<F: Files, S: Sink>(
    alloc: Global,
    words: &SampleWords,
    files: &mut F,
    out: &mut S,
) -> Status
    ensures answer { Samples (with_faults (Said S.taken S.faults S.has_room)) words.now
        (F.held files.old) (F.held files.new) (out.old, F.faults files.old)
        (out.new, F.faults files.new) result }
    ensures calls { CommandCalls F.faults F.never_fails files.old files.new result }
{
    match compiled_sample(alloc, words.functions) {
        Ok(compiled) => make(alloc, &compiled, words.amx.as_str(), files, out),
        Err(stop) => tell_stop(stop, out),
    }
}

/// Compiles the source of so many functions.
fn compiled_sample(alloc: Global, functions: u32) -> Result<Compiled, Stop>
    ensures answer { IsMade (Some (sample_files functions)) sample_name Plain result }
    ensures fault { ¬ (result ≡ Err Stop.FileFault) }
{
    let mut files = source_files(alloc, functions)?;
    compiled_source(alloc, "sample.p", Encoding::Plain, &mut files)
}

/// The one file, which holds the source of so many functions.
fn source_files(alloc: Global, functions: u32) -> Result<MemoryFiles, Memory>
    ensures { IfOk result (λ files. (files.held ≡ sample_files functions)
        × (files.schedule.fails ≡ [])) }
{
    let source = sample_source(alloc, functions)?;
    let mut files = MemoryFiles::new(alloc, &[])?;
    files.hold("sample.p", source.as_slice())?;
    Ok(files)
}

/// Puts a file, and runs the bytes that were put.
fn make<F: Files, S: Sink>(
    alloc: Global,
    compiled: &Compiled,
    amx: &str,
    files: &mut F,
    out: &mut S,
) -> Status
    ensures answer { MakesSample (with_faults (Said S.taken S.faults S.has_room)) amx.now
        compiled.now.bytes (F.held files.old) (F.held files.new) (out.old, F.faults files.old)
        (out.new, F.faults files.new) result }
    ensures calls { CommandCalls F.faults F.never_fails files.old files.new result }
{
    let bytes = compiled.bytes.as_slice();
    match put(amx, bytes, files) {
        Ok(()) => run_bytes(alloc, bytes, out),
        Err(stop) => tell_stop(stop, out),
    }
}

/// Runs the file that bytes are.
fn run_bytes<S: Sink>(alloc: Global, bytes: &[u8], out: &mut S) -> Status
    // Of bytes that are a valid file.
    ensures answer { (amx : Amx) → IsValidFile bytes.now amx →
        RunsSample (Said S.taken S.faults S.has_room) amx out.old out.new result }
    ensures fault { ¬ (result ≡ Status.FileFault) }
{
    match valid_file(alloc, bytes) {
        Ok(file) => run_plain(alloc, file, bytes, out),
        Err(stop) => tell_stop(stop, out),
    }
}

/// Runs a file, read from these bytes, under the plain script.
fn run_plain<S: Sink>(alloc: Global, file: Verified, bytes: &[u8], out: &mut S) -> Status
    requires bytes { IsFile bytes.now file }
    ensures { RunsSample (Said S.taken S.faults S.has_room) file out.old out.new result }
{
    match plain(alloc) {
        Ok(script) => run_under(alloc, file, bytes, &script, out),
        Err(stop) => tell_stop(stop, out),
    }
}

/// Runs a file under a script, which is the plain one.
fn run_under<S: Sink>(
    alloc: Global,
    file: Verified,
    bytes: &[u8],
    script: &Script,
    out: &mut S,
) -> Status
    requires bytes { IsFile bytes.now file }
    requires script { IsScript script.now }
    requires is_plain { script.now ≡ plain }
    ensures { RunsSample (Said S.taken S.faults S.has_room) file out.old out.new result }
{
    let cells = file.amx().code.len();
    match make_ready(alloc, file, bytes, script) {
        Ok(ready) => {
            let (steps, end) = run_ready(ready, script, DEFAULT_STEPS, 0, out);
            tell_counted(end, steps, cells, out)
        }
        Err(stop) => tell_stop(stop, out),
    }
}
