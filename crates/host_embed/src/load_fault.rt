ghost use Rattle.std.specs.Prelude.{◌≡◌};
ghost use Rattle.host_embed.specs.Loads as loads;

use amx_format::FormatFault;
use amx_verify::VerifyFault;
use thiserror::Error;

/// Why bytes have no machine.
#[derive(Clone, Copy, Debug, PartialEq, Eq, Error)]
pub enum LoadFault {
    /// They are no file.
    #[error("no file: {0}")]
    Format(FormatFault),
    /// The file isn't valid.
    #[error("an invalid file: {0}")]
    Invalid(VerifyFault),
    #[error("no memory")]
    Memory,
}

impl LoadFault {
    /// Its number: from 80 to 97 of bytes that are no file, from 100 to 107 of a file that isn't
    /// valid, 15 for want of memory.
    pub fn code(self) -> i32
        ensures { result ≡ loads.number_of self }
    {
        let number = match self {
            LoadFault::Format(fault) => fault.number(),
            LoadFault::Invalid(fault) => fault.number(),
            LoadFault::Memory => None,
        };
        match number {
            Some(number) => i32::from(number),
            None => 15,
        }
    }

    /// Its place: the address of an instruction, or the number of an entry; else 0.
    pub fn place(self) -> i64
        ensures { result ≡ loads.place_of self }
    {
        match self {
            LoadFault::Invalid(
                VerifyFault::Opcode(at)
                | VerifyFault::Cut(at)
                | VerifyFault::Target(at)
                | VerifyFault::CaseTable(at)
                | VerifyFault::Native(at)
                | VerifyFault::Register(at)
                | VerifyFault::ByteCount(at),
            ) => i64::from(at),
            LoadFault::Invalid(VerifyFault::Entry(number)) => i64::from(number),
            LoadFault::Invalid(VerifyFault::Memory) | LoadFault::Format(_) | LoadFault::Memory => 0,
        }
    }
}
