ghost use Rattle.std.specs.Prelude.{◌≡◌, Some};
ghost use Rattle.host_script.specs.Ranges.{IsScript};
ghost use Rattle.amx_format.specs.File.{IsFile};
ghost use Rattle.pawn_outside.specs.Said.{Said};
ghost use Rattle.amx_machine.specs.Machine.{first};
ghost use Rattle.command_parts.specs.Calls.{CommandCalls};
ghost use Rattle.command_parts.specs.Told.{with_faults};
ghost use Rattle.host_run.specs.Entry.{IsEntryOf};
ghost use Rattle.commands.specs.Prepared.{CanRun, IsPrepared, IsReadyFor};
ghost use Rattle.commands.specs.ReadySegment.{program_of};
ghost use Rattle.commands.specs.Runs.{Runs, RunsProgram, RunsEntry};

use super::counted::{say_error, tell_run};
use super::ready_segment::{ReadySegment, load, ready_at, run_on};
use amx_ops::Amx;
use amx_verify::Verified;
use command_parts::{
    Program, ReadProgram, RunWords, Status, Stop, no_entry, read_program, tell_stop,
};
use host_run::entry_of;
use pawn_base::Bytes;
use pawn_outside::{Files, Sink};
use std::alloc::Global;

/// Reads a file and a script, starts a machine at an entry, writes its trace, and puts its image
/// where it falls asleep.
pub fn run<F: Files, S: Sink>(alloc: Global, words: &RunWords, files: &mut F, out: &mut S) -> Status
    ensures answer { Runs (with_faults (Said S.taken S.faults S.has_room)) words.now
        (F.held files.old) (F.held files.new) (out.old, F.faults files.old)
        (out.new, F.faults files.new) result }
    ensures calls { CommandCalls F.faults F.never_fails files.old files.new result }
{
    match read_program(alloc, words.amx.as_str(), words.script.as_str(), files) {
        Ok(read) => {
            let ReadProgram { program, bytes } = read;
            run_program(alloc, program, bytes, words, files, out)
        }
        Err(stop) => tell_stop(stop, out),
    }
}

/// Runs a program, whose file was read from these bytes.
fn run_program<F: Files, S: Sink>(
    alloc: Global,
    program: Program,
    bytes: Bytes,
    words: &RunWords,
    files: &mut F,
    out: &mut S,
) -> Status
    requires file { IsFile bytes program.file }
    requires script { IsScript program.script }
    ensures answer { RunsProgram (with_faults (Said S.taken S.faults S.has_room)) program words.now
        (F.held files.old) (F.held files.new) (out.old, F.faults files.old)
        (out.new, F.faults files.new) result }
    ensures calls { CommandCalls F.faults F.never_fails files.old files.new result }
{
    match entry_of(runnable(&program.file), words.entry.as_slice()) {
        Some(entry) => match prepare(alloc, program, bytes) {
            Ok(ready) => start(ready, entry, words, files, out),
            Err(stop) => tell_stop(stop, out),
        },
        None => tell_stop(no_entry(alloc, words.entry.as_slice()), out),
    }
}

/// The file, which a machine can run.
pub fn runnable(file: &Verified) -> &Amx
    ensures value { result.now ≡ file.now }
    ensures can { CanRun file.now }
{
    let amx = file.amx();
    // For the proof alone: what a slice holds is in the range of its cells.
    let _code = amx.code.as_slice();
    let _store = amx.store.as_slice();
    amx
}

/// Loads a machine, and makes it ready.
fn prepare(alloc: Global, program: Program, bytes: Bytes) -> Result<ReadySegment, Stop>
    requires file { IsFile bytes program.file }
    requires script { IsScript program.script }
    ensures { IsReadyFor program (first program.file) 0 result }
{
    let Program {
        file,
        digest,
        script,
    } = program;
    let machine = load(alloc, file, bytes)?;
    ready_at(alloc, machine, digest, script, 0)
}

/// Starts a machine and runs it. It ends in an error where the start finds no room.
fn start<F: Files, S: Sink>(
    ready: ReadySegment,
    entry: i32,
    words: &RunWords,
    files: &mut F,
    out: &mut S,
) -> Status
    requires can { CanRun ready.machine.amx }
    requires script { IsScript ready.script }
    requires prepared { IsPrepared (program_of ready) ready }
    requires there { IsEntryOf ready.machine.amx words.now.entry (Some entry) }
    ensures answer { RunsEntry (with_faults (Said S.taken S.faults S.has_room)) (program_of ready)
        words.now (F.held files.old) (F.held files.new) (out.old, F.faults files.old)
        (out.new, F.faults files.new) result }
    ensures calls { CommandCalls F.faults F.never_fails files.old files.new result }
{
    let mut ready = ready;
    let image = words.image.as_str();
    match ready.machine.start(entry, &[]) {
        Ok(()) => run_on(ready, words.steps, words.count, image, files, out),
        Err(fault) => tell_run(say_error(fault.code(), out), words.count, 0, out),
    }
}
