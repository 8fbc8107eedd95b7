ghost use Rattle.pawn_outside.specs.Said.{Said};
ghost use Rattle.host_script.specs.Ranges.{IsScript};
ghost use Rattle.amx_format.specs.File.{IsFile};
ghost use Rattle.commands.specs.Counted.{RunsTrace};
ghost use Rattle.commands.specs.Played.{trace_of};
ghost use Rattle.commands.specs.ReadyFile.{IsReadyFile};
ghost use Rattle.commands.specs.RunsFile.{RunsFile, TellsRun};

use super::counted::{say_error, tell_run};
use super::ready_file::{ReadyFile, make_ready};
use amx_verify::Verified;
use command_parts::{GoWords, Status, tell_stop};
use host_run::{SessionEnd, run_segments};
use host_script::Script;
use pawn_outside::Sink;
use std::alloc::Global;

/// Runs a file, read from these bytes, from its main under a script, for so many steps at most in
/// each segment, and goes on behind so many sleeps as the words say; writes its trace, or what
/// keeps it from being run.
pub fn run_file<S: Sink>(
    alloc: Global,
    file: Verified,
    bytes: &[u8],
    script: &Script,
    words: &GoWords,
    out: &mut S,
) -> Status
    requires bytes { IsFile bytes.now file }
    requires script { IsScript script.now }
    ensures { RunsFile (Said S.taken S.faults S.has_room) file script.now words.now out.old
        out.new result }
{
    match make_ready(alloc, file, bytes, script) {
        Ok(ready) => play(ready, script, words, out),
        Err(stop) => tell_stop(stop, out),
    }
}

/// Runs a machine that is ready, and writes its trace.
fn play<S: Sink>(ready: ReadyFile, script: &Script, words: &GoWords, out: &mut S) -> Status
    requires script { IsScript script.now }
    requires ready { IsReadyFile ready.machine.amx script.now ready }
    ensures { TellsRun (Said S.taken S.faults S.has_room) ready.machine.amx script.now
        words.now out.old out.new result }
{
    let (steps, end) = run_ready(ready, script, words.steps, words.sleeps, out);
    tell_run(end, words.count, steps, out)
}

/// Starts a machine that is ready, and runs it for so many steps at most in each segment, going on
/// behind so many sleeps. It ends in an error where the start finds no room. Tells how many steps
/// were done, and how it ended.
pub fn run_ready<S: Sink>(
    ready: ReadyFile,
    script: &Script,
    steps: u64,
    sleeps: u32,
    out: &mut S,
) -> (u128, SessionEnd)
    requires script { IsScript script.now }
    requires ready { IsReadyFile ready.machine.amx script.now ready }
    ensures { RunsTrace (Said S.taken S.faults S.has_room)
        (trace_of ready.machine.amx script.now steps sleeps) out.old out.new result.0
        result.1 }
{
    let ReadyFile {
        mut machine,
        mut bound,
    } = ready;
    match machine.start(-1, &[]) {
        Ok(()) => {
            let ran = run_segments(&mut machine, &mut bound, script, steps, sleeps, out);
            (ran.steps, ran.end)
        }
        Err(fault) => (0, say_error(fault.code(), out)),
    }
}
