use pawn_base::{Bytes, Memory};
use pawn_cells::Place;
use thiserror::Error;

/// Why the preprocessor made no lines.
#[derive(Debug, Drop, Error)]
pub enum PreFault {
    /// A fault of the source, from 1 to 12, the line where it stands and the name of that file.
    #[error("a fault of the source")]
    Source { kind: u8, place: Place, name: Bytes },
    /// The source isn't held.
    #[error("no such source")]
    NoSource,
    /// The file of this name is longer than 16,777,216 bytes.
    #[error("a file is too large")]
    TooLarge(Bytes),
    /// The files failed.
    #[error("the files failed")]
    Files,
    #[error("no memory")]
    Memory,
}

impl From<Memory> for PreFault {
    ghost use Rattle.std.specs.Prelude.{◌≡◌};
    ghost use Rattle.pawn_pre.specs.declared.fault.PreFault.TheVariants as fault;

    ghost from_gives = { λ _ e. e ≡ fault.Memory };

    fn from(_: Memory) -> PreFault {
        PreFault::Memory
    }
}
