ghost use Rattle.std.specs.Prelude.{◌≡◌};
ghost use Rattle.pawn_outside.specs.Said.{Said};
ghost use Rattle.command_parts.specs.Calls.{CommandCalls};
ghost use Rattle.command_parts.specs.Told.{with_faults};
ghost use Rattle.pawn_cli.specs.Sizes.{TellsBytes, TellsSizesOf};

use super::file_sizes::FileSizes;
use command_parts::{FILE_LIMIT, Status, read_bytes, tell_stop, told, valid_file};
use pawn_outside::{Files, Sink};
use std::alloc::Global;

/// Reads a file, and tells how many bytes its parts take, and how many publics and natives it has.
pub fn sizes<F: Files, S: Sink>(alloc: Global, amx: &str, files: &mut F, out: &mut S) -> Status
    ensures answer { TellsSizesOf (with_faults (Said S.taken S.faults S.has_room)) amx.now
        (F.held files.old) (F.held files.new) (out.old, F.faults files.old)
        (out.new, F.faults files.new) result }
    ensures calls { CommandCalls F.faults F.never_fails files.old files.new result }
{
    match read_bytes(alloc, amx, FILE_LIMIT, files) {
        Ok(bytes) => tell_bytes(alloc, bytes.as_slice(), out),
        Err(stop) => tell_stop(stop, out),
    }
}

/// Tells the sizes of the file that bytes are.
fn tell_bytes<S: Sink>(alloc: Global, bytes: &[u8], out: &mut S) -> Status
    ensures answer { TellsBytes (Said S.taken S.faults S.has_room) bytes.now out.old out.new
        result }
    ensures fault { ¬ (result ≡ Status.FileFault) }
{
    match valid_file(alloc, bytes) {
        Ok(file) => told(Status::Ok, FileSizes::of(bytes, file.amx()).say(out)),
        Err(stop) => tell_stop(stop, out),
    }
}
