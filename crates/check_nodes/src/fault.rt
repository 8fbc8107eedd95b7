ghost use Rattle.std.specs.Prelude.{◌≡◌};

use pawn_base::Memory;
use pawn_cells::Place;
use pawn_verdict::CheckFault;
use std::alloc::{AllocError, AllocFailed};
use thiserror::Error;

/// Why a part of a source doesn't stand.
#[derive(Clone, Copy, Debug, PartialEq, Eq, Error)]
pub enum PartFault {
    /// A rule is broken, by its number, at the place of the node that breaks it.
    #[error("fault {kind}")]
    Source { kind: u8, place: Place },
    /// What the part names doesn't stand, and no rule is broken in the part itself.
    #[error("fallen")]
    Fallen,
    #[error("no memory")]
    Memory,
}

impl From<CheckFault> for PartFault {
    ghost use Rattle.std.specs.Prelude.{◌≡◌};
    ghost use Rattle.check_nodes.specs.PartAnswers.{part_of};

    ghost from_gives = { λ it fault. fault ≡ part_of it };

    fn from(fault: CheckFault) -> PartFault {
        match fault {
            CheckFault::Source { kind, place } => PartFault::Source { kind, place },
            CheckFault::Memory => PartFault::Memory,
        }
    }
}

impl From<Memory> for PartFault {
    ghost use Rattle.std.specs.Prelude.{◌≡◌};
    ghost use Rattle.check_nodes.specs.declared.fault.PartFault.TheVariants.{Memory as NoMemory};

    ghost from_gives = { λ _ fault. fault ≡ NoMemory };

    fn from(_: Memory) -> PartFault {
        PartFault::Memory
    }
}

impl From<AllocError> for PartFault {
    ghost use Rattle.std.specs.Prelude.{◌≡◌};
    ghost use Rattle.check_nodes.specs.declared.fault.PartFault.TheVariants.{Memory as NoMemory};

    ghost from_gives = { λ _ fault. fault ≡ NoMemory };

    fn from(_: AllocError) -> PartFault {
        PartFault::Memory
    }
}

impl<T: Drop> From<AllocFailed<T>> for PartFault {
    ghost use Rattle.std.specs.Prelude.{◌≡◌};
    ghost use Rattle.check_nodes.specs.declared.fault.PartFault.TheVariants.{Memory as NoMemory};

    ghost from_gives = { λ _ fault. fault ≡ NoMemory };

    fn from(_: AllocFailed<T>) -> PartFault {
        PartFault::Memory
    }
}
