ghost use Rattle.std.specs.Prelude.{◌≡◌, None, Some, if◌then◌else◌, negsuc};
ghost use Rattle.pawn_cells.specs.Cells.{equal};
ghost use Rattle.host_script.specs.Ranges.{IsScript};
ghost use Rattle.amx_format.specs.File.{IsFile};
ghost use Rattle.commands.specs.ReadyFile.{Readies, ServesFile};

use super::bind::bind_natives;
use amx_machine::Machine;
use amx_verify::Verified;
use command_parts::{Stop, no_entry};
use host_run::{Bound, MAIN};
use host_script::Script;
use std::alloc::Global;

/// A file's machine before any start, and its natives bound to a script.
#[derive(Drop)]
pub struct ReadyFile {
    pub machine: Machine,
    pub bound: Bound,
}

/// Looks main up, then the natives in a script, and makes a machine of the bytes that the file was
/// read from.
pub fn make_ready(
    alloc: Global,
    file: Verified,
    bytes: &[u8],
    script: &Script,
) -> Result<ReadyFile, Stop>
    requires bytes { IsFile bytes.now file }
    requires script { IsScript script.now }
    ensures { Readies file script.now result }
{
    match main_at(file.amx().entry) {
        None => Err(no_entry(alloc, &MAIN)),
        Some(_) => serve(alloc, file, bytes, script),
    }
}

/// The address of main, where it isn't -1.
fn main_at(address: i32) -> Option<i32>
    ensures { result ≡ (if equal address (negsuc 0) then None else Some address) }
{
    if address == -1 { None } else { Some(address) }
}

/// Binds the natives, and makes a machine.
fn serve(alloc: Global, file: Verified, bytes: &[u8], script: &Script) -> Result<ReadyFile, Stop>
    requires bytes { IsFile bytes.now file }
    requires script { IsScript script.now }
    ensures { ServesFile file script.now result }
{
    let bound = bind_natives(alloc, &file, script)?;
    let machine = Machine::load_file(alloc, file, bytes)?;
    Ok(ReadyFile { machine, bound })
}
