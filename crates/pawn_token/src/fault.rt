use pawn_base::Memory;
use thiserror::Error;

/// A byte that begins no token.
pub const BAD_BYTE: u8 = 20;

/// A number with a letter, or a point and a digit, directly behind it.
pub const BAD_NUMBER: u8 = 21;

/// A number of 2^32 or more.
pub const NUMBER_TOO_WIDE: u8 = 22;

/// A text or a character that isn't closed as it should be.
pub const OPEN_TEXT: u8 = 23;

/// A name of more than 31 bytes.
pub const NAME_TOO_LONG: u8 = 25;

/// The control character with something behind it that is no escape.
pub const BAD_ESCAPE: u8 = 26;

/// Why no token was read.
#[derive(Clone, Copy, Debug, PartialEq, Eq, Error)]
pub enum TokenFault {
    /// A fault of the text: 20 to 23, 25 or 26.
    #[error("a fault of the text")]
    Source(u8),
    #[error("no memory")]
    Memory,
}

impl From<Memory> for TokenFault {
    ghost use Rattle.std.specs.Prelude.{◌≡◌};
    ghost use Rattle.pawn_token.specs.declared.fault.TokenFault.TheVariants as bad;

    ghost from_gives = { λ _ answer. answer ≡ bad.Memory };

    fn from(_: Memory) -> TokenFault {
        TokenFault::Memory
    }
}
