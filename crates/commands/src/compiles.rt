ghost use Rattle.std.specs.Prelude.{◌≡◌};
ghost use Rattle.pawn_outside.specs.Said.{Said};
ghost use Rattle.command_parts.specs.Calls.{CommandCalls};
ghost use Rattle.command_parts.specs.Told.{with_faults};
ghost use Rattle.commands.specs.Compiles.{Compiles, encoding_of};

use super::put_file::put_file;
use super::sources::compiled_source;
use command_parts::{CompileWords, Status, tell_stop};
use pawn_front::Encoding;
use pawn_outside::{Files, Sink};
use std::alloc::Global;

/// Compiles a source, puts its file, and tells its warnings and the bytes that were put.
pub fn compile<F: Files, S: Sink>(
    alloc: Global,
    words: &CompileWords,
    files: &mut F,
    out: &mut S,
) -> Status
    ensures answer { Compiles (with_faults (Said S.taken S.faults S.has_room)) words.now
        (F.held files.old) (F.held files.new) (out.old, F.faults files.old)
        (out.new, F.faults files.new) result }
    ensures calls { CommandCalls F.faults F.never_fails files.old files.new result }
{
    match compiled_source(alloc, words.src.as_str(), encoding_of(words.compact), files) {
        Ok(it) => {
            let warnings = it.warnings.as_slice();
            put_file(
                it.bytes.as_slice(),
                warnings,
                words.amx.as_str(),
                files,
                out,
            )
        }
        Err(cause) => tell_stop(cause, out),
    }
}

/// How the cells of a file stand.
pub fn encoding_of(compact: bool) -> Encoding
    ensures { result ≡ encoding_of compact }
{
    if compact {
        Encoding::Compact
    } else {
        Encoding::Plain
    }
}
