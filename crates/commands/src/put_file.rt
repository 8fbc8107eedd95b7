ghost use Rattle.std.specs.Prelude.{◌++◌, length};
ghost use Rattle.pawn_outside.specs.Said.{Said};
ghost use Rattle.command_parts.specs.Calls.{CommandCalls};
ghost use Rattle.command_parts.specs.Told.{with_faults};
ghost use Rattle.commands.specs.Lines.{ok_line, warning_lines};
ghost use Rattle.commands.specs.PutFile.{PutsFile};

use super::lines::{say_ok, say_warnings};
use command_parts::{Status, put, tell_stop, told};
use pawn_front::Warning;
use pawn_outside::{Files, Sink, SinkFault};

/// Puts the bytes of a file, and tells of its warnings and of the bytes that were put.
pub fn put_file<F: Files, S: Sink>(
    bytes: &[u8],
    warnings: &[Warning],
    amx: &str,
    files: &mut F,
    out: &mut S,
) -> Status
    ensures answer { let text = warning_lines warnings.now ++ ok_line (length bytes.now) in
        PutsFile (with_faults (Said S.taken S.faults S.has_room)) bytes.now text amx.now
        (F.held files.old) (F.held files.new) (out.old, F.faults files.old)
        (out.new, F.faults files.new) result }
    ensures calls { CommandCalls F.faults F.never_fails files.old files.new result }
{
    match put(amx, bytes, files) {
        Ok(()) => told(Status::Ok, say_put(bytes, warnings, out)),
        Err(stop) => tell_stop(stop, out),
    }
}

/// Writes the lines of the warnings, and the line of the bytes that were put.
fn say_put<S: Sink>(bytes: &[u8], warnings: &[Warning], out: &mut S) -> Result<(), SinkFault>
    ensures { let text = warning_lines warnings.now ++ ok_line (length bytes.now) in
        Said S.taken S.faults S.has_room out.old out.new text result }
{
    match say_warnings(warnings, out) {
        Ok(()) => say_ok(bytes.len(), out),
        Err(SinkFault) => Err(SinkFault),
    }
}
