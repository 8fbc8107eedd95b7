ghost use Rattle.std.specs.Prelude.{◌≡◌};
ghost use Rattle.pawn_outside.specs.Said.{Said};
ghost use Rattle.command_parts.specs.Told.{status_told, TellsLine};

use super::status::Status;
use super::stop::Stop;
use pawn_outside::{Sink, SinkFault};

/// The status to answer, by whether the text was written.
pub fn told(status: Status, said: Result<(), SinkFault>) -> Status
    ensures { result ≡ status_told status said }
{
    match said {
        Ok(()) => status,
        Err(SinkFault) => Status::SinkFault,
    }
}

/// Writes the line of a stop, and answers its status.
pub fn tell_stop<S: Sink>(stop: Stop, out: &mut S) -> Status
    ensures { TellsLine stop (Said S.taken S.faults S.has_room) out.old out.new result }
{
    told(stop.status(), stop.say(out))
}
