ghost use Rattle.host_script.specs.Ranges.{IsScript};
ghost use Rattle.amx_format.specs.File.{IsFile};
ghost use Rattle.commands.specs.Wakes.{Wakes};

use super::ready_segment::{ReadySegment, load, ready_at};
use amx_image::{ImageFault, restore_into};
use command_parts::{Program, Stop};
use pawn_base::{Bytes, Memory};
use std::alloc::Global;

/// Why a machine isn't woken at an image.
#[derive(Drop)]
pub enum WakeFault {
    Stop(Stop),
    Image(ImageFault),
}

impl From<Memory> for WakeFault {
    ghost use Rattle.std.specs.Prelude.{◌≡◌};
    ghost use Rattle.command_parts.specs.declared.stop.Stop.TheVariants.{NoMemory};
    ghost use Rattle.commands.specs.declared.wake.WakeFault.TheVariants as variants;

    ghost from_gives = { λ _ fault. fault ≡ variants.Stop NoMemory };

    fn from(_: Memory) -> WakeFault {
        WakeFault::Stop(Stop::NoMemory)
    }
}

impl From<Stop> for WakeFault {
    ghost use Rattle.std.specs.Prelude.{◌≡◌};
    ghost use Rattle.commands.specs.declared.wake.WakeFault.TheVariants as variants;

    ghost from_gives = { λ stop fault. fault ≡ variants.Stop stop };

    fn from(stop: Stop) -> WakeFault {
        WakeFault::Stop(stop)
    }
}

impl From<ImageFault> for WakeFault {
    ghost use Rattle.std.specs.Prelude.{◌≡◌};
    ghost use Rattle.commands.specs.declared.wake.WakeFault.TheVariants as variants;

    ghost from_gives = { λ image fault. fault ≡ variants.Image image };

    fn from(fault: ImageFault) -> WakeFault {
        WakeFault::Image(fault)
    }
}

/// A machine of a program, whose file was read from these bytes, set to the state of an image, with
/// all that it takes to go on.
pub fn wake(
    alloc: Global,
    image: &[u8],
    program: Program,
    bytes: Bytes,
) -> Result<ReadySegment, WakeFault>
    requires file { IsFile bytes program.file }
    requires script { IsScript program.script }
    ensures { Wakes program image.now result }
{
    let Program {
        file,
        digest,
        script,
    } = program;
    let mut machine = load(alloc, file, bytes)?;
    let at = restore_into(&mut machine, &digest, image)?;
    let ready = ready_at(alloc, machine, digest, script, at)?;
    Ok(ready)
}
