ghost use Rattle.pawn_outside.specs.Said.{Said};
ghost use Rattle.command_parts.specs.Calls.{CommandCalls};
ghost use Rattle.command_parts.specs.Told.{with_faults};
ghost use Rattle.pawn_cli.specs.ReadsFile.{Verifies};

use command_parts::{Status, read_valid, tell_stop, told};
use pawn_outside::{Files, Sink, say};
use std::alloc::Global;

/// Reads a file, and says that it is valid.
pub fn verify<F: Files, S: Sink>(alloc: Global, amx: &str, files: &mut F, out: &mut S) -> Status
    ensures answer { Verifies (with_faults (Said S.taken S.faults S.has_room)) amx.now
        (F.held files.old) (F.held files.new) (out.old, F.faults files.old)
        (out.new, F.faults files.new) result }
    ensures calls { CommandCalls F.faults F.never_fails files.old files.new result }
{
    match read_valid(alloc, amx, files) {
        Err(stop) => tell_stop(stop, out),
        Ok(_) => told(Status::Ok, say(out, &[b"valid\n"])),
    }
}
