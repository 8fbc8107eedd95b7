use pawn_base::{Bytes, Memory};
use pawn_pre::PreFault;
use thiserror::Error;

/// Why a source isn't compiled.
#[derive(Debug, Drop, Error)]
pub enum CompileFault {
    /// The source breaks a rule: the rule's number, from 1 to 71, and the name of the file and the
    /// number of the line, from 1, where it stands.
    #[error("a fault of the source")]
    Refused { kind: u8, file: Bytes, line: u32 },
    /// The source isn't held.
    #[error("no such source")]
    NoSource,
    /// The file of this name is longer than 16,777,216 bytes.
    #[error("a file is too large")]
    TooLarge(Bytes),
    /// The files failed.
    #[error("the files failed")]
    Files,
    #[error("no memory")]
    Memory,
}

impl From<Memory> for CompileFault {
    ghost use Rattle.std.specs.Prelude.{◌≡◌};
    ghost use Rattle.pawn_front.specs.declared.fault.CompileFault.TheVariants as fault;

    ghost from_gives = { λ _ given. given ≡ fault.Memory };

    fn from(_: Memory) -> CompileFault {
        CompileFault::Memory
    }
}

/// The fault that the preprocessor's is.
impl From<PreFault> for CompileFault {
    ghost use Rattle.std.specs.Prelude.{◌≡◌};
    ghost use Rattle.pawn_front.specs.Checks.{fault_of};

    ghost from_gives = { λ fault given. given ≡ fault_of fault };

    fn from(fault: PreFault) -> CompileFault {
        match fault {
            PreFault::Source { kind, place, name } => CompileFault::Refused {
                kind,
                file: name,
                line: place.line,
            },
            PreFault::NoSource => CompileFault::NoSource,
            PreFault::TooLarge(name) => CompileFault::TooLarge(name),
            PreFault::Files => CompileFault::Files,
            PreFault::Memory => CompileFault::Memory,
        }
    }
}
