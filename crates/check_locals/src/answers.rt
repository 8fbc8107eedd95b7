ghost use Rattle.std.specs.Prelude.{◌≡◌};
ghost use Rattle.check_locals.specs.Tells.{answer_of, told_part};

use check_nodes::PartFault;
use pawn_verdict::CheckFault;

/// What a part answers, with None where it falls.
///
/// # Errors
///
/// The fault of the part.
pub fn told<T>(part: Result<T, PartFault>) -> Result<Option<T>, CheckFault>
    ensures { result ≡ told_part part }
{
    match part {
        Ok(it) => Ok(Some(it)),
        Err(PartFault::Fallen) => Ok(None),
        Err(PartFault::Source { kind, place }) => Err(CheckFault::Source { kind, place }),
        Err(PartFault::Memory) => Err(CheckFault::Memory),
    }
}

/// The same as a part answers it.
///
/// # Errors
///
/// The fault of the part, or that it falls.
pub fn answer<T>(told: Result<Option<T>, CheckFault>) -> Result<T, PartFault>
    ensures { result ≡ answer_of told }
{
    match told {
        Ok(Some(it)) => Ok(it),
        Ok(None) => Err(PartFault::Fallen),
        Err(CheckFault::Source { kind, place }) => Err(PartFault::Source { kind, place }),
        Err(CheckFault::Memory) => Err(PartFault::Memory),
    }
}
