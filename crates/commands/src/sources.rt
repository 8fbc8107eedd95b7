ghost use Rattle.std.specs.Prelude.{◌≡◌, Err};
ghost use Rattle.pawn_outside.specs.OnlyRead.{OnlyRead};
ghost use Rattle.command_parts.specs.Unread.{IsStopOf};
ghost use Rattle.commands.specs.Made.{IsMade, stop_of};

use command_parts::{Stop, no_file};
use pawn_front::{CompileFault, Compiled, Encoding, compile};
use pawn_outside::Files;
use std::alloc::Global;

/// Compiles the source that a name holds.
pub fn compiled_source<F: Files>(
    alloc: Global,
    src: &str,
    encoding: Encoding,
    files: &mut F,
) -> Result<Compiled, Stop>
    ensures calls { OnlyRead F.held F.faults F.never_fails files.old files.new
        (result ≡ Err Stop.FileFault) }
    ensures answer { IsMade (F.held files.old) src.now encoding result }
{
    match compile(alloc, src, files, encoding) {
        Ok(compiled) => Ok(compiled),
        Err(fault) => Err(stop_of(alloc, src, fault)),
    }
}

/// The stop at a source that isn't compiled, or want of memory for its name.
pub fn stop_of(alloc: Global, src: &str, fault: CompileFault) -> Stop
    ensures stop { IsStopOf (stop_of src.now fault) result }
    ensures files { fault ≡ CompileFault.Files → result ≡ Stop.FileFault }
{
    match fault {
        CompileFault::Refused { kind, file, line } => Stop::Refused { kind, file, line },
        CompileFault::NoSource => no_file(alloc, src),
        CompileFault::TooLarge(name) => Stop::TooLarge(name),
        CompileFault::Files => Stop::FileFault,
        CompileFault::Memory => Stop::NoMemory,
    }
}
