ghost use Rattle.host_script.specs.Ranges.{IsScript};
ghost use Rattle.amx_format.specs.File.{IsFile};
ghost use Rattle.pawn_outside.specs.Said.{Said};
ghost use Rattle.command_parts.specs.Calls.{CommandCalls};
ghost use Rattle.command_parts.specs.Told.{with_faults};
ghost use Rattle.commands.specs.Resumes.{Resumes, ResumesProgram};

use super::image::tell_image;
use super::ready_segment::run_on;
use super::runs::runnable;
use super::wake::{WakeFault, wake};
use command_parts::{
    Program, ReadProgram, ResumeWords, Status, read_bytes, read_program, tell_stop,
};
use pawn_base::Bytes;
use pawn_outside::{Files, Sink};
use std::alloc::Global;

/// The most bytes of an image.
pub const IMAGE_LIMIT: u64 = 167_772_160;

/// Reads a file, a script and an image, goes on from the sleep where the image was put, writes the
/// trace, and puts the next image where the machine falls asleep.
pub fn resume<F: Files, S: Sink>(
    alloc: Global,
    words: &ResumeWords,
    files: &mut F,
    out: &mut S,
) -> Status
    ensures answer { Resumes (with_faults (Said S.taken S.faults S.has_room)) words.now
        (F.held files.old) (F.held files.new) (out.old, F.faults files.old)
        (out.new, F.faults files.new) result }
    ensures calls { CommandCalls F.faults F.never_fails files.old files.new result }
{
    match read_program(alloc, words.amx.as_str(), words.script.as_str(), files) {
        Ok(read) => {
            let ReadProgram { program, bytes } = read;
            resume_program(alloc, program, bytes, words, files, out)
        }
        Err(stop) => tell_stop(stop, out),
    }
}

/// Reads the image of a program, whose file was read from these bytes, wakes a machine at it, and
/// goes on.
fn resume_program<F: Files, S: Sink>(
    alloc: Global,
    program: Program,
    bytes: Bytes,
    words: &ResumeWords,
    files: &mut F,
    out: &mut S,
) -> Status
    requires file { IsFile bytes program.file }
    requires script { IsScript program.script }
    ensures answer { ResumesProgram (with_faults (Said S.taken S.faults S.has_room)) program
        words.now (F.held files.old) (F.held files.new) (out.old, F.faults files.old)
        (out.new, F.faults files.new) result }
    ensures calls { CommandCalls F.faults F.never_fails files.old files.new result }
{
    // For the proof alone: a machine can run the file.
    let _ = runnable(&program.file);
    let name = words.image.as_str();
    let image = match read_bytes(alloc, name, IMAGE_LIMIT, files) {
        Ok(image) => image,
        Err(stop) => return tell_stop(stop, out),
    };
    match wake(alloc, image.as_slice(), program, bytes) {
        Ok(ready) => run_on(ready, words.steps, words.count, name, files, out),
        Err(WakeFault::Stop(stop)) => tell_stop(stop, out),
        Err(WakeFault::Image(fault)) => tell_image(fault, out),
    }
}
