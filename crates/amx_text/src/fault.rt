use pawn_base::Memory;
use thiserror::Error;

/// Why a text isn't assembled: the first cause in the order of the variants, with its line from 1,
/// or want of memory.
#[derive(Clone, Copy, Debug, PartialEq, Eq, Error)]
pub enum AsmFault {
    /// 140: the first line that has no form which may follow the line before it; a missing line is
    /// the one behind the last.
    #[error("line {0} isn't one that may stand here")]
    Form(u32),
    /// 144: the file would be too large. It is told at line 1.
    #[error("the file would be too large")]
    Limit,
    /// 141: the first line whose address isn't four times the cells before it.
    #[error("line {0} has another address")]
    Address(u32),
    /// 142: the line behind a part that hasn't as many cells as the header says.
    #[error("the header counts other cells than stand before line {0}")]
    Count(u32),
    /// 143: the first instruction or record that the verifier refuses; main is told at line 1.
    #[error("line {0} isn't valid")]
    Invalid(u32),
    #[error("no memory")]
    Memory,
}

impl AsmFault {
    ghost use Rattle.std.specs.Prelude.{◌≡◌};
    ghost use Rattle.amx_text.specs.Faults.{refusal_of};

    /// The number of the refusal, from 140 to 144, and its line; nothing for want of memory.
    pub fn refusal(&self) -> Option<(u8, u32)>
        ensures { result ≡ refusal_of self.now }
    {
        match self {
            AsmFault::Form(line) => Some((140, *line)),
            AsmFault::Limit => Some((144, 1)),
            AsmFault::Address(line) => Some((141, *line)),
            AsmFault::Count(line) => Some((142, *line)),
            AsmFault::Invalid(line) => Some((143, *line)),
            AsmFault::Memory => None,
        }
    }
}

impl From<Memory> for AsmFault {
    ghost use Rattle.std.specs.Prelude.{◌≡◌};
    ghost use Rattle.amx_text.specs.declared.fault.AsmFault.TheVariants as variants;

    ghost from_gives = { λ _ fault. fault ≡ variants.Memory };

    fn from(_: Memory) -> AsmFault {
        AsmFault::Memory
    }
}
