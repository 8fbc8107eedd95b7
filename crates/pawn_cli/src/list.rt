ghost use Rattle.std.specs.Prelude.{◌+◌, ◌≤◌, length};
ghost use Rattle.pawn_outside.specs.Said.{Said};
ghost use Rattle.amx_text.specs.Listing.{listing};
ghost use Rattle.command_parts.specs.Calls.{CommandCalls};
ghost use Rattle.command_parts.specs.Told.{with_faults};
ghost use Rattle.pawn_cli.specs.ReadsFile.{Lists};
ghost use Rattle.amx_ops.specs.Writable.{cells_limit};

use amx_ops::Amx;
use command_parts::{Status, read_valid, tell_stop, told};
use pawn_outside::{Files, Sink, SinkFault, WriteAnswer};
use std::alloc::Global;

/// Reads a file, and writes its listing.
pub fn list<F: Files, S: Sink>(alloc: Global, amx: &str, files: &mut F, out: &mut S) -> Status
    ensures answer { Lists (with_faults (Said S.taken S.faults S.has_room)) amx.now
        (F.held files.old) (F.held files.new) (out.old, F.faults files.old)
        (out.new, F.faults files.new) result }
    ensures calls { CommandCalls F.faults F.never_fails files.old files.new result }
{
    match read_valid(alloc, amx, files) {
        Err(stop) => tell_stop(stop, out),
        Ok(verified) => told(Status::Ok, say_listing(verified.amx(), out)),
    }
}

fn say_listing<S: Sink>(amx: &Amx, out: &mut S) -> Result<(), SinkFault>
    requires { length amx.now.code + length amx.now.store + amx.now.room ≤ cells_limit }
    ensures { Said S.taken S.faults S.has_room out.old out.new (listing amx.now) result }
{
    match amx_text::list(amx, out) {
        WriteAnswer::Taken => Ok(()),
        WriteAnswer::Failed => Err(SinkFault),
    }
}
