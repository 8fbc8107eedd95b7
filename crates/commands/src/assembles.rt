ghost use Rattle.std.specs.Prelude.{◌≡◌, ◌≤◌, length, Err};
ghost use Rattle.pawn_outside.specs.OnlyRead.{OnlyRead};
ghost use Rattle.pawn_outside.specs.Said.{Said};
ghost use Rattle.amx_text.specs.Faults.{refusal_of};
ghost use Rattle.command_parts.specs.declared.read.TheConstants.{SOURCE_LIMIT};
ghost use Rattle.command_parts.specs.Calls.{CommandCalls};
ghost use Rattle.command_parts.specs.Told.{with_faults};
ghost use Rattle.command_parts.specs.Unread.{IsStopOf};
ghost use Rattle.commands.specs.Assembles.{Assembles, IsTextMade, IsTextRead, stop_by};

use super::compiles::encoding_of;
use super::put_file::put_file;
use amx_format::{Encoding, write};
use amx_text::AsmFault;
use command_parts::{AssembleWords, SOURCE_LIMIT, Status, Stop, read_bytes, refused, tell_stop};
use pawn_base::{Bytes, Memory};
use pawn_outside::{Files, Sink};
use std::alloc::Global;

/// Assembles a text, puts the file that is listed with it, and tells of the bytes that were put.
pub fn assemble<F: Files, S: Sink>(
    alloc: Global,
    words: &AssembleWords,
    files: &mut F,
    out: &mut S,
) -> Status
    ensures answer { Assembles (with_faults (Said S.taken S.faults S.has_room)) words.now
        (F.held files.old) (F.held files.new) (out.old, F.faults files.old)
        (out.new, F.faults files.new) result }
    ensures calls { CommandCalls F.faults F.never_fails files.old files.new result }
{
    match assembled_text(
        alloc,
        words.text.as_str(),
        encoding_of(words.compact),
        files,
    ) {
        Ok(file) => put_file(file.as_slice(), &[], words.amx.as_str(), files, out),
        Err(cause) => tell_stop(cause, out),
    }
}

/// Reads a text by its name, and makes the file that is listed with it.
fn assembled_text<F: Files>(
    alloc: Global,
    name: &str,
    encoding: Encoding,
    files: &mut F,
) -> Result<Bytes, Stop>
    ensures calls { OnlyRead F.held F.faults F.never_fails files.old files.new
        (result ≡ Err Stop.FileFault) }
    ensures answer { IsTextRead (F.held files.old) name.now encoding result }
{
    let text = read_bytes(alloc, name, SOURCE_LIMIT, files)?;
    file_of(alloc, name, text.as_slice(), encoding)
}

/// The bytes of the file that is listed with a text.
fn file_of(alloc: Global, name: &str, text: &[u8], encoding: Encoding) -> Result<Bytes, Stop>
    requires { length text.now ≤ SOURCE_LIMIT }
    ensures { IsTextMade name.now encoding text.now result }
{
    let amx = match amx_text::assemble(alloc, text) {
        Ok(amx) => amx,
        Err(fault) => return Err(stop_at(alloc, name, fault)),
    };
    match write(alloc, &amx, encoding) {
        Ok(file) => Ok(file),
        Err(Memory) => Err(Stop::NoMemory),
    }
}

/// The stop at a text that isn't assembled.
fn stop_at(alloc: Global, name: &str, fault: AsmFault) -> Stop
    ensures { IsStopOf (stop_by name.now (refusal_of fault)) result }
{
    match fault.refusal() {
        Some((kind, line)) => refused(alloc, kind, name, line),
        None => Stop::NoMemory,
    }
}
