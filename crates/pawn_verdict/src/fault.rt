ghost use Rattle.std.specs.Prelude.{◌≡◌};

use pawn_base::Memory;
use pawn_cells::Place;
use std::alloc::{AllocError, AllocFailed};
use thiserror::Error;

/// A rule that a source breaks, by its number, at the place of the node that breaks it, or want of
/// memory.
#[derive(Clone, Copy, Debug, PartialEq, Eq, Error)]
pub enum CheckFault {
    #[error("fault {kind}")]
    Source { kind: u8, place: Place },
    #[error("no memory")]
    Memory,
}

impl From<Memory> for CheckFault {
    ghost use Rattle.std.specs.Prelude.{◌≡◌};
    ghost use Rattle.pawn_verdict.specs.declared.fault.CheckFault.TheVariants.{Memory as NoMemory};

    ghost from_gives = { λ _ fault. fault ≡ NoMemory };

    fn from(_: Memory) -> CheckFault {
        CheckFault::Memory
    }
}

impl From<AllocError> for CheckFault {
    ghost use Rattle.std.specs.Prelude.{◌≡◌};
    ghost use Rattle.pawn_verdict.specs.declared.fault.CheckFault.TheVariants.{Memory as NoMemory};

    ghost from_gives = { λ _ fault. fault ≡ NoMemory };

    fn from(_: AllocError) -> CheckFault {
        CheckFault::Memory
    }
}

impl<T: Drop> From<AllocFailed<T>> for CheckFault {
    ghost use Rattle.std.specs.Prelude.{◌≡◌};
    ghost use Rattle.pawn_verdict.specs.declared.fault.CheckFault.TheVariants.{Memory as NoMemory};

    ghost from_gives = { λ _ fault. fault ≡ NoMemory };

    fn from(_: AllocFailed<T>) -> CheckFault {
        CheckFault::Memory
    }
}

/// The node at a place breaks a rule.
pub fn broken(kind: u8, place: Place) -> CheckFault
    ensures { result ≡ CheckFault.Source kind place }
{
    CheckFault::Source { kind, place }
}
