ghost use Rattle.std.specs.Prelude.{◌≡◌, Err};
ghost use Rattle.pawn_outside.specs.OnlyRead.{OnlyRead};
ghost use Rattle.command_parts.specs.Unread.{AreBytes};

use super::named_stop::{no_file, too_large};
use super::stop::Stop;
use pawn_base::Bytes;
use pawn_outside::{Files, ReadAnswer};
use std::alloc::Global;

/// The most bytes of a source, or of a text that is assembled.
pub const SOURCE_LIMIT: u64 = 16_777_216;

/// The most bytes of an AMX file.
pub const FILE_LIMIT: u64 = amx_format::FILE_LIMIT;

/// Reads a file by its name.
pub fn read_bytes<F: Files>(
    alloc: Global,
    name: &str,
    limit: u64,
    files: &mut F,
) -> Result<Bytes, Stop>
    ensures calls { OnlyRead F.held F.faults F.never_fails files.old files.new
        (result ≡ Err Stop.FileFault) }
    ensures answer { AreBytes (F.held files.old) name.now limit result }
{
    match files.read(alloc, name, limit) {
        ReadAnswer::Got(bytes) => Ok(bytes),
        ReadAnswer::Missing => Err(no_file(alloc, name)),
        ReadAnswer::TooLarge => Err(too_large(alloc, name)),
        ReadAnswer::Failed => Err(Stop::FileFault),
        ReadAnswer::Memory => Err(Stop::NoMemory),
    }
}
