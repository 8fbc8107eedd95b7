ghost use Rattle.std.specs.Prelude.{◌≡◌, ◌++◌};
ghost use Rattle.pawn_outside.specs.Said.{Said};
ghost use Rattle.host_script.specs.Text.{end_text};
ghost use Rattle.host_script.specs.declared.event.End.{End as RunEnd};
ghost use Rattle.amx_ops.specs.Moves.{Config};
ghost use Rattle.amx_ops.specs.Runs.{Traced};
ghost use Rattle.host_run.specs.Session.{told as told_by};
ghost use Rattle.commands.specs.Counted.{IsErrorTold, RunsTrace, TellsCounted, counts_text};
ghost use Rattle.commands.specs.Counted.{rest_of, status_by};
ghost use Rattle.commands.specs.Played.{TellsTrace};
ghost use Rattle.commands.specs.Used.{used_line, used_text, with_used};

use command_parts::{Status, told};
use host_run::SessionEnd;
use host_script::{End, say_end};
use itoa::Buffer;
use pawn_outside::{Sink, SinkFault, say};

/// Writes the line of an error, which a run ends in.
pub fn say_error<S: Sink>(code: i32, out: &mut S) -> SessionEnd
    ensures is { IsErrorTold code result }
    ensures line { Said S.taken S.faults S.has_room out.old out.new
        (end_text (RunEnd.Error code)) (told_by result) }
{
    match say_end(out, End::Error(code)) {
        Ok(()) => SessionEnd::Error(code),
        Err(SinkFault) => SessionEnd::SinkFault,
    }
}

/// Writes what is left of a run's text, then the counts of its code's cells and of its steps, and
/// answers the run's status.
pub fn tell_counted<S: Sink>(end: SessionEnd, steps: u128, cells: usize, out: &mut S) -> Status
    // Whatever was run from whichever sink on.
    ensures { (t : Traced Config RunEnd) (begun : S) →
        RunsTrace (Said S.taken S.faults S.has_room) t begun out.old steps end →
        TellsCounted (Said S.taken S.faults S.has_room) cells t begun out.new result }
{
    match status_of(end) {
        Some(status) => told(status, say_counted(end, steps, cells, out)),
        None => Status::SinkFault,
    }
}

/// Writes what is left of a run's text, then how many steps it did, where that is asked for, and
/// answers the run's status.
pub fn tell_run<S: Sink>(end: SessionEnd, count: bool, steps: u128, out: &mut S) -> Status
    // Whatever was run from whichever sink on.
    ensures tells { (t : Traced Config RunEnd) (begun : S) →
        RunsTrace (Said S.taken S.faults S.has_room) t begun out.old steps end →
        TellsTrace t (with_used count t.steps (Said S.taken S.faults S.has_room)) begun out.new
        result }
    ensures sink { end ≡ SessionEnd.SinkFault → result ≡ Status.SinkFault }
    ensures fault { ¬ (result ≡ Status.FileFault) }
{
    match status_of(end) {
        Some(status) => told(status, say_rest(end, count, steps, out)),
        None => Status::SinkFault,
    }
}

/// The status of a run, unless the sink failed.
fn status_of(end: SessionEnd) -> Option<Status>
    ensures { result ≡ status_by end }
{
    match end {
        SessionEnd::Done(_) => Some(Status::Ok),
        SessionEnd::Exit { .. } => Some(Status::Ok),
        SessionEnd::Error(_) => Some(Status::Ended),
        SessionEnd::Asleep { .. } => Some(Status::Asleep),
        SessionEnd::Steps => Some(Status::Steps),
        SessionEnd::SinkFault => None,
    }
}

/// Writes the line of a bound that is used up, where it is, and both counts.
fn say_counted<S: Sink>(
    end: SessionEnd,
    steps: u128,
    cells: usize,
    out: &mut S,
) -> Result<(), SinkFault>
    ensures { let text = rest_of end ++ counts_text cells steps in
        Said S.taken S.faults S.has_room out.old out.new text result }
{
    say_left(end, out)?;
    say_counts(cells, steps, out)
}

/// Writes the line of a bound that is used up, where it is, and that of the steps, where that is
/// asked for.
fn say_rest<S: Sink>(
    end: SessionEnd,
    count: bool,
    steps: u128,
    out: &mut S,
) -> Result<(), SinkFault>
    ensures { let text = rest_of end ++ used_text count steps in
        Said S.taken S.faults S.has_room out.old out.new text result }
{
    say_left(end, out)?;
    say_used(count, steps, out)
}

/// Writes the line of the steps, where it is asked for.
fn say_used<S: Sink>(count: bool, steps: u128, out: &mut S) -> Result<(), SinkFault>
    ensures { Said S.taken S.faults S.has_room out.old out.new (used_text count steps) result }
{
    if count { say_steps(steps, out) } else { Ok(()) }
}

/// Writes how many steps were done.
fn say_steps<S: Sink>(steps: u128, out: &mut S) -> Result<(), SinkFault>
    ensures { Said S.taken S.faults S.has_room out.old out.new (used_line steps) result }
{
    let mut digits = Buffer::new();
    say(out, &[b"used ", digits.format(steps).as_bytes(), b"\n"])
}

/// Writes the line that a session leaves to its caller, where it leaves one.
fn say_left<S: Sink>(end: SessionEnd, out: &mut S) -> Result<(), SinkFault>
    ensures { Said S.taken S.faults S.has_room out.old out.new (rest_of end) result }
{
    match end {
        SessionEnd::Steps => say(out, &[b"steps\n"]),
        SessionEnd::Done(_) => Ok(()),
        SessionEnd::Exit { .. } => Ok(()),
        SessionEnd::Error(_) => Ok(()),
        SessionEnd::Asleep { .. } => Ok(()),
        SessionEnd::SinkFault => Ok(()),
    }
}

/// Writes both counts.
fn say_counts<S: Sink>(cells: usize, steps: u128, out: &mut S) -> Result<(), SinkFault>
    ensures { Said S.taken S.faults S.has_room out.old out.new (counts_text cells steps) result }
{
    let (mut digits, mut used) = (Buffer::new(), Buffer::new());
    let (cells, steps) = (
        digits.format(cells).as_bytes(),
        used.format(steps).as_bytes(),
    );
    say(out, &[b"cells ", cells, b"\nused ", steps, b"\n"])
}
