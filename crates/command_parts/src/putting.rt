ghost use Rattle.std.specs.Prelude.{◌≡◌, Err};
ghost use Rattle.command_parts.specs.Calls.{Calls};
ghost use Rattle.command_parts.specs.Put.{IsPut};

use super::stop::Stop;
use pawn_outside::{Files, PutAnswer};

/// Puts a file.
pub fn put<F: Files>(name: &str, bytes: &[u8], files: &mut F) -> Result<(), Stop>
    ensures answer { IsPut (F.held files.old) (F.held files.new) name.now bytes.now result }
    ensures calls { Calls F.faults F.never_fails files.old files.new
        (result ≡ Err Stop.FileFault) }
{
    match files.put(name, bytes) {
        PutAnswer::Kept => Ok(()),
        PutAnswer::Failed => Err(Stop::FileFault),
        PutAnswer::Memory => Err(Stop::NoMemory),
    }
}
