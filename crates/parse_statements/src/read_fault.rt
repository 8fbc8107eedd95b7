use pawn_base::Memory;
use std::alloc::{AllocError, AllocFailed};
use thiserror::Error;

/// Why nothing was read.
#[derive(Clone, Copy, Debug, PartialEq, Eq, Error)]
pub enum ReadFault {
    /// No tree goes on at the token with this number, counted from 0. Behind the last token it is
    /// the number of tokens.
    #[error("no tree goes on at token {0}")]
    Syntax(usize),
    #[error("no memory")]
    Memory,
}

impl From<Memory> for ReadFault {
    ghost use Rattle.std.specs.Prelude.{◌≡◌};
    ghost use Rattle.parse_statements.specs.declared.read_fault.ReadFault.TheVariants as fault;

    ghost from_gives = { λ _ answer. answer ≡ fault.Memory };

    fn from(_: Memory) -> ReadFault {
        ReadFault::Memory
    }
}

impl From<AllocError> for ReadFault {
    ghost use Rattle.std.specs.Prelude.{◌≡◌};
    ghost use Rattle.parse_statements.specs.declared.read_fault.ReadFault.TheVariants as fault;

    ghost from_gives = { λ _ answer. answer ≡ fault.Memory };

    fn from(_: AllocError) -> ReadFault {
        ReadFault::Memory
    }
}

impl<T: Drop> From<AllocFailed<T>> for ReadFault {
    ghost use Rattle.std.specs.Prelude.{◌≡◌};
    ghost use Rattle.parse_statements.specs.declared.read_fault.ReadFault.TheVariants as fault;

    ghost from_gives = { λ _ answer. answer ≡ fault.Memory };

    fn from(_: AllocFailed<T>) -> ReadFault {
        ReadFault::Memory
    }
}
