ghost use Rattle.pawn_outside.specs.Said.{Said};
ghost use Rattle.pawn_outside.specs.Taken.{joined};

use super::fault::SinkFault;
use super::sink::{Sink, WriteAnswer};

/// Writes pieces one behind another, as one line is written. It takes no memory, and stops at the
/// first write that fails.
pub fn say<S: Sink>(out: &mut S, pieces: &[&[u8]]) -> Result<(), SinkFault>
    ensures { Said S.taken S.faults S.has_room out.old out.new (joined pieces.now) result }
{
    for piece in pieces {
        match out.write(piece) {
            WriteAnswer::Taken => {}
            WriteAnswer::Failed => return Err(SinkFault),
        }
    }
    Ok(())
}
