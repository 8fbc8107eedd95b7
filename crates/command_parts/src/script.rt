ghost use Rattle.std.specs.Prelude.{◌≡◌, Err, IfOk};
ghost use Rattle.host_script.specs.Ranges.{IsScript};
ghost use Rattle.pawn_outside.specs.OnlyRead.{OnlyRead};
ghost use Rattle.command_parts.specs.ScriptFile.{IsScriptFileRead, IsScriptRead};
ghost use Rattle.command_parts.specs.ScriptFile.{field_stop, stop_at};

use super::read::{SOURCE_LIMIT, read_bytes};
use super::stop::Stop;
use pawn_outside::Files;
use script_reader::{Field, Script, ScriptFault, read_script};
use std::alloc::Global;

/// The most bytes of a script.
pub const SCRIPT_LIMIT: u64 = SOURCE_LIMIT;

/// Reads a script by its name.
pub fn read_script_file<F: Files>(alloc: Global, name: &str, files: &mut F) -> Result<Script, Stop>
    ensures calls { OnlyRead F.held F.faults F.never_fails files.old files.new
        (result ≡ Err Stop.FileFault) }
    ensures answer { IsScriptFileRead (F.held files.old) name.now result }
    ensures ranges { IfOk result IsScript }
{
    let bytes = read_bytes(alloc, name, SCRIPT_LIMIT, files)?;
    script_of(alloc, bytes.as_slice())
}

/// The script that bytes are.
fn script_of(alloc: Global, bytes: &[u8]) -> Result<Script, Stop>
    ensures answer { IsScriptRead bytes.now result }
    ensures ranges { IfOk result IsScript }
{
    match read_script(alloc, bytes) {
        Ok(script) => Ok(script),
        Err(fault) => Err(stop_at(fault)),
    }
}

/// The stop at bytes that are no script.
fn stop_at(fault: ScriptFault) -> Stop
    ensures { result ≡ stop_at fault }
{
    let kind = fault.number();
    match fault {
        ScriptFault::Json => Stop::NoScript,
        ScriptFault::Shape(field) => field_stop(kind, field),
        ScriptFault::Range(field) => field_stop(kind, field),
        ScriptFault::Memory => Stop::NoMemory,
    }
}

/// The stop at a field.
fn field_stop(kind: Option<u8>, field: Field) -> Stop
    ensures { result ≡ field_stop kind field }
{
    match kind {
        Some(kind) => Stop::BadScript { kind, field },
        None => Stop::NoMemory,
    }
}
