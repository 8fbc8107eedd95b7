ghost use Rattle.std.specs.Prelude.{◌≡◌};

use amx_compact::CompactFault;
use pawn_base::Memory;
use thiserror::Error;

/// Why bytes are no file, the first cause in the order of the numbers that are named, or want of
/// memory.
#[derive(Clone, Copy, Debug, PartialEq, Eq, Error)]
pub enum FormatFault {
    /// 90: fewer bytes than a header has.
    #[error("the header isn't whole")]
    TooShort,
    /// 91.
    #[error("the magic number is another one")]
    Magic,
    /// 92: the file's version, or that of the AMX.
    #[error("the version is unknown")]
    Version,
    /// 93.
    #[error("a record has another size")]
    RecordSize,
    /// 94, after 97: places that don't rise in their units, or too much memory.
    #[error("tables and parts are out of order")]
    Order,
    /// 95: a name outside the name table.
    #[error("a name stands outside the name table")]
    NameOutside,
    /// 96: a name without a zero byte before the code.
    #[error("a name isn't ended")]
    NameOpen,
    /// 97, before 94: the size isn't that of the bytes, or of the header's parts.
    #[error("the size differs")]
    SizeDiffers,
    /// 80 to 83: compact cells, by their fault's number.
    #[error("compact cells: {0}")]
    Compact(u8),
    #[error("no memory")]
    Memory,
}

impl FormatFault {
    ghost use Rattle.amx_format.specs.Faults.{number_of};

    /// The number of the refusal, or nothing for want of memory.
    pub fn number(&self) -> Option<u8>
        ensures { result ≡ number_of self.now }
    {
        match self {
            FormatFault::TooShort => Some(90),
            FormatFault::Magic => Some(91),
            FormatFault::Version => Some(92),
            FormatFault::RecordSize => Some(93),
            FormatFault::Order => Some(94),
            FormatFault::NameOutside => Some(95),
            FormatFault::NameOpen => Some(96),
            FormatFault::SizeDiffers => Some(97),
            FormatFault::Compact(number) => Some(*number),
            FormatFault::Memory => None,
        }
    }
}

impl From<Memory> for FormatFault {
    ghost use Rattle.std.specs.Prelude.{◌≡◌};
    ghost use Rattle.amx_format.specs.declared.fault.FormatFault.TheVariants as variants;

    ghost from_gives = { λ _ fault. fault ≡ variants.Memory };

    fn from(_: Memory) -> FormatFault {
        FormatFault::Memory
    }
}

impl From<CompactFault> for FormatFault {
    ghost use Rattle.std.specs.Prelude.{◌≡◌};
    ghost use Rattle.amx_format.specs.Faults.{of_cells};

    ghost from_gives = { λ given fault. fault ≡ of_cells given };

    fn from(fault: CompactFault) -> FormatFault {
        match fault.number() {
            Some(number) => FormatFault::Compact(number),
            None => FormatFault::Memory,
        }
    }
}
