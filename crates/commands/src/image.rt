ghost use Rattle.std.specs.Prelude.{◌≡◌};
ghost use Rattle.pawn_outside.specs.Said.{Said};
ghost use Rattle.commands.specs.ImageLine.{TellsImage, image_line};
ghost use Rattle.commands.specs.ImageLine.{register_named, register_text};

use amx_image::ImageFault;
use command_parts::{Status, told};
use itoa::Buffer;
use pawn_outside::{Sink, SinkFault, say};

/// Writes the line of bytes that are no image, and answers the status.
pub fn tell_image<S: Sink>(fault: ImageFault, out: &mut S) -> Status
    ensures { TellsImage fault (Said S.taken S.faults S.has_room) out.old out.new result }
{
    told(Status::BadImage, say_image(fault, out))
}

fn say_image<S: Sink>(fault: ImageFault, out: &mut S) -> Result<(), SinkFault>
    ensures { Said S.taken S.faults S.has_room out.old out.new (image_line fault) result }
{
    let mut kinds = Buffer::new();
    let kind = kinds.format(fault.number()).as_bytes();
    say(out, &[b"bad image ", kind, register_text(fault), b"\n"])
}

/// A blank and the register that is refused, if it is one.
fn register_text(fault: ImageFault) -> &'static [u8]
    ensures { result.now ≡ register_text fault }
{
    match fault {
        ImageFault::Register(number) => register_named(number),
        ImageFault::Short => b"",
        ImageFault::Magic => b"",
        ImageFault::Version => b"",
        ImageFault::Digest => b"",
        ImageFault::Length => b"",
        ImageFault::DeadCell => b"",
        ImageFault::LiveLength => b"",
    }
}

fn register_named(number: u8) -> &'static [u8]
    ensures { result.now ≡ register_named number }
{
    if number == 5 {
        b" HEA"
    } else if number == 4 {
        b" STK"
    } else {
        b" CIP"
    }
}
