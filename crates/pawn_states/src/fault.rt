use pawn_base::Memory;
use thiserror::Error;

/// Why clauses are no dispatch: the first that breaks a rule by itself or with those before it, by
/// its number from 0, or want of memory.
#[derive(Clone, Copy, Debug, PartialEq, Eq, Error)]
pub enum StateFault {
    /// It names a state twice, or one that stands before.
    #[error("clause {0} names a state twice")]
    Twice(u32),
    /// It is a fallback, as one before it.
    #[error("clause {0} is a second fallback")]
    FallbackTwice(u32),
    /// It names another automaton than one before it.
    #[error("clause {0} names another automaton")]
    Mixed(u32),
    #[error("no memory")]
    Memory,
}

impl From<Memory> for StateFault {
    ghost use Rattle.std.specs.Prelude.{◌≡◌};
    ghost use Rattle.pawn_states.specs.declared.fault.StateFault.TheVariants as variants;

    ghost from_gives = { λ _ fault. fault ≡ variants.Memory };

    fn from(_: Memory) -> StateFault {
        StateFault::Memory
    }
}
