use pawn_base::Memory;
use thiserror::Error;

/// Why a file isn't valid (Implementer's Guide, "Instruction reference"): the first cause, with the
/// byte address of its instruction, or want of memory.
#[derive(Clone, Copy, Debug, PartialEq, Eq, Error)]
pub enum VerifyFault {
    /// No instruction has this number.
    #[error("no instruction at {0}")]
    Opcode(u32),
    /// An instruction passes the code's end.
    #[error("the instruction at {0} passes the code's end")]
    Cut(u32),
    /// A jump or a call leads where no instruction starts.
    #[error("the instruction at {0} leads to no instruction")]
    Target(u32),
    /// A case table has a negative count or leads where no instruction starts, or an instruction
    /// names no case table.
    #[error("no case table at {0}")]
    CaseTable(u32),
    /// The native table has no such entry.
    #[error("the instruction at {0} names no native")]
    Native(u32),
    #[error("the instruction at {0} names no register")]
    Register(u32),
    /// No such number of bytes.
    #[error("the instruction at {0} has a wrong number of bytes")]
    ByteCount(u32),
    /// Main, as -1, or the public with this number begins where no instruction starts.
    #[error("entry {0} is no instruction")]
    Entry(i32),
    #[error("no memory")]
    Memory,
}

impl VerifyFault {
    ghost use Rattle.std.specs.Prelude.{◌≡◌};
    ghost use Rattle.amx_verify.specs.Verdict.{number_of};

    /// The number of the refusal, from 100 to 107, or nothing for want of memory.
    pub fn number(&self) -> Option<u8>
        ensures { result ≡ number_of self.now }
    {
        match self {
            VerifyFault::Opcode(_) => Some(100),
            VerifyFault::Cut(_) => Some(101),
            VerifyFault::Target(_) => Some(102),
            VerifyFault::CaseTable(_) => Some(103),
            VerifyFault::Native(_) => Some(104),
            VerifyFault::Register(_) => Some(105),
            VerifyFault::ByteCount(_) => Some(106),
            VerifyFault::Entry(_) => Some(107),
            VerifyFault::Memory => None,
        }
    }
}

impl From<Memory> for VerifyFault {
    ghost use Rattle.std.specs.Prelude.{◌≡◌};
    ghost use Rattle.amx_verify.specs.declared.fault.VerifyFault.TheVariants as variants;

    ghost from_gives = { λ _ fault. fault ≡ variants.Memory };

    fn from(_: Memory) -> VerifyFault {
        VerifyFault::Memory
    }
}
