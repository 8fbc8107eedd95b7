ghost use Rattle.std.specs.Prelude.{◌≡◌, Err, IfOk};
ghost use Rattle.host_script.specs.Ranges.{IsScript};
ghost use Rattle.pawn_outside.specs.OnlyRead.{OnlyRead};
ghost use Rattle.commands.specs.Natives.{AreNatives, IsPlain};

use command_parts::{Name, Stop, read_script_file};
use host_script::plain_script;
use pawn_base::Memory;
use pawn_outside::Files;
use script_reader::Script;
use std::alloc::Global;

/// The script that a name holds, or the plain one.
pub fn natives<F: Files>(
    alloc: Global,
    script: &Option<Name>,
    files: &mut F,
) -> Result<Script, Stop>
    ensures calls { OnlyRead F.held F.faults F.never_fails files.old files.new
        (result ≡ Err Stop.FileFault) }
    ensures answer { AreNatives (F.held files.old) script.now result }
    ensures ranges { IfOk result IsScript }
{
    match script {
        None => plain(alloc),
        Some(name) => read_script_file(alloc, name.as_str(), files),
    }
}

/// The plain script.
pub fn plain(alloc: Global) -> Result<Script, Stop>
    ensures answer { IsPlain result }
    ensures ranges { IfOk result IsScript }
{
    match plain_script(alloc) {
        Ok(script) => Ok(script),
        Err(Memory) => Err(Stop::NoMemory),
    }
}
