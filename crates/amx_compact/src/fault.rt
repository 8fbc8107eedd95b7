ghost use Rattle.std.specs.Prelude.{◌≡◌};

use pawn_base::Memory;
use thiserror::Error;

/// Why bytes aren't the cells that are wanted: the first cause in the order of the bytes, or want
/// of memory.
#[derive(Clone, Copy, Debug, PartialEq, Eq, Error)]
pub enum CompactFault {
    /// The bytes end with cells missing.
    #[error("cells are missing")]
    Short,
    /// The bytes end inside a cell.
    #[error("the last cell isn't ended")]
    OpenGroup,
    /// A cell has a sixth byte.
    #[error("a cell has more than five bytes")]
    GroupTooLong,
    /// Bytes stand behind the last cell.
    #[error("bytes stand behind the last cell")]
    TooMany,
    #[error("no memory")]
    Memory,
}

impl CompactFault {
    ghost use Rattle.amx_compact.specs.Causes.{number_of};

    /// The number of the refusal, from 80 to 83, or nothing for want of memory.
    pub fn number(&self) -> Option<u8>
        ensures { result ≡ number_of self.now }
    {
        match self {
            CompactFault::Short => Some(80),
            CompactFault::OpenGroup => Some(81),
            CompactFault::GroupTooLong => Some(82),
            CompactFault::TooMany => Some(83),
            CompactFault::Memory => None,
        }
    }
}

impl From<Memory> for CompactFault {
    ghost use Rattle.std.specs.Prelude.{◌≡◌};
    ghost use Rattle.amx_compact.specs.declared.fault.CompactFault.TheVariants as variants;

    ghost from_gives = { λ _ fault. fault ≡ variants.Memory };

    fn from(_: Memory) -> CompactFault {
        CompactFault::Memory
    }
}
