ghost use Rattle.std.specs.Prelude.{◌≡◌, IfOk};
ghost use Rattle.host_script.specs.Ranges.{IsScript};
ghost use Rattle.amx_format.specs.File.{IsFile};
ghost use Rattle.amx_format.specs.Limits.{IsWithinLimits};
ghost use Rattle.amx_machine.specs.Machine.{first};
ghost use Rattle.pawn_outside.specs.Said.{Said};
ghost use Rattle.host_run.specs.Segments.{segment_of};
ghost use Rattle.command_parts.specs.Calls.{CommandCalls};
ghost use Rattle.command_parts.specs.Told.{steadily, with_faults};
ghost use Rattle.command_parts.specs.declared.program.Program.{Program};
ghost use Rattle.commands.specs.Finishes.{Finishes, Keeps};
ghost use Rattle.commands.specs.Prepared.{IsReadyFor};
ghost use Rattle.commands.specs.ReadySegment.{IsReadySegment, place_of};
ghost use Rattle.commands.specs.Used.{with_used};

use super::bind::bind_natives;
use super::counted::tell_run;
use amx_image::{ImageBuffer, save_into};
use amx_machine::Machine;
use amx_verify::Verified;
use command_parts::{Status, Stop, put, tell_stop};
use host_run::{Bound, session};
use host_script::Script;
use pawn_base::{Bytes, Memory};
use pawn_outside::{Files, Sink};
use std::alloc::Global;

/// A machine of a program, with all that a segment of it takes.
#[derive(Drop)]
pub struct ReadySegment {
    pub machine: Machine,
    /// Of the machine's file.
    pub digest: [u8; 32],
    pub script: Script,
    pub bound: Bound,
    /// The script's position.
    pub at: u32,
    /// Room for an image of the machine.
    pub buffer: ImageBuffer,
}

/// The machine of a file, from the bytes that it was read from, which are given up.
pub fn load(alloc: Global, file: Verified, bytes: Bytes) -> Result<Machine, Memory>
    requires { IsFile bytes file }
    ensures { IfOk result (λ machine. machine ≡ first file) }
{
    Machine::load_file(alloc, file, bytes.as_slice())
}

/// Binds the natives of a machine to a script at a position of it, and takes room for an image.
pub fn ready_at(
    alloc: Global,
    machine: Machine,
    digest: [u8; 32],
    script: Script,
    at: u32,
) -> Result<ReadySegment, Stop>
    requires limits { IsWithinLimits machine.amx }
    requires script { IsScript script }
    ensures { let program : Program =
        record { file = machine.amx; digest = digest; script = script } in
        IsReadyFor program machine at result }
{
    let bound = bind_natives(alloc, machine.verified(), &script)?;
    let buffer = ImageBuffer::new(alloc, &machine)?;
    Ok(ReadySegment {
        machine,
        digest,
        script,
        bound,
        at,
        buffer,
    })
}

/// Runs a machine that is running or at a sleep for so many steps at most, writes its trace, with
/// how many were done where that is asked for, and puts its image where it falls asleep. Only the
/// put may want memory.
pub fn run_on<F: Files, S: Sink>(
    ready: ReadySegment,
    steps: u64,
    count: bool,
    image: &str,
    files: &mut F,
    out: &mut S,
) -> Status
    requires { IsReadySegment ready }
    ensures answer { let made = segment_of ready.script (place_of ready) steps in
        Finishes (with_used count made.steps (steadily (Said S.taken S.faults S.has_room)))
        (with_faults (Said S.taken S.faults S.has_room)) (F.held files.old) (F.held files.new)
        image.now ready.digest made.stop made.config (out.old, F.faults files.old)
        (out.new, F.faults files.new) result }
    ensures calls { CommandCalls F.faults F.never_fails files.old files.new result }
{
    let ReadySegment {
        mut machine,
        digest,
        script,
        mut bound,
        mut at,
        mut buffer,
    } = ready;
    let (used, end) = session(&mut machine, &mut bound, &script, &mut at, steps, out);
    match tell_run(end, count, u128::from(used), out) {
        Status::Asleep => {
            save_into(&machine, at, &digest, &mut buffer);
            keep(image, buffer.bytes(), files, out)
        }
        status => status,
    }
}

/// Puts an image behind the line of a sleep.
fn keep<F: Files, S: Sink>(image: &str, bytes: &[u8], files: &mut F, out: &mut S) -> Status
    ensures answer { Keeps (with_faults (Said S.taken S.faults S.has_room)) (F.held files.old)
        (F.held files.new) image.now bytes.now (out.old, F.faults files.old)
        (out.new, F.faults files.new) result }
    ensures calls { CommandCalls F.faults F.never_fails files.old files.new result }
{
    match put(image, bytes, files) {
        Ok(()) => Status::Asleep,
        Err(stop) => tell_stop(stop, out),
    }
}
