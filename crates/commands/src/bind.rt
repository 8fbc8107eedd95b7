ghost use Rattle.std.specs.Prelude.{◌≡◌, ◌<◌, ◌^◌, length};
ghost use Rattle.host_script.specs.Ranges.{IsScript};
ghost use Rattle.amx_ops.specs.Moves.{name_of};
ghost use Rattle.commands.specs.Served.{AreBound};

use amx_ops::Record;
use amx_verify::Verified;
use command_parts::{Stop, unregistered};
use host_run::{BindFault, Bound, bind};
use host_script::Script;
use std::alloc::Global;

/// Binds the natives of a file to a script.
pub fn bind_natives(alloc: Global, file: &Verified, script: &Script) -> Result<Bound, Stop>
    requires script { IsScript script.now }
    requires natives { length file.now.natives < 2 ^ 31 }
    ensures { AreBound file.now script.now result }
{
    match bind(alloc, file, script) {
        Ok(bound) => Ok(bound),
        Err(BindFault::Unregistered(number)) => {
            let natives = file.amx().natives.as_slice();
            Err(unregistered(alloc, name_at(natives, number)))
        }
        Err(BindFault::Memory) => Err(Stop::NoMemory),
    }
}

/// The name of a native by its number.
fn name_at(natives: &[Record], number: u32) -> &[u8]
    ensures { result.now ≡ name_of natives.now number }
{
    match natives.get(number as usize) {
        None => b"",
        Some(native) => native.name.as_slice(),
    }
}
