use pawn_base::Memory;

/// A directive that there isn't.
pub const UNKNOWN_DIRECTIVE: u8 = 1;

/// `#elseif`, `#else` or `#endif` without its `#if`, or behind the `#else`; a file that ends in a
/// conditional.
pub const UNBALANCED_CONDITIONAL: u8 = 2;

/// An include that isn't held.
pub const MISSING_INCLUDE: u8 = 3;

/// `#error`.
pub const ERROR_DIRECTIVE: u8 = 4;

/// `#assert` with the value 0.
pub const FALSE_ASSERT: u8 = 5;

/// A `#define` with a bad pattern or text.
pub const BAD_PATTERN: u8 = 6;

/// More than 1,000 substitutions in a line.
pub const TOO_MANY_SUBSTITUTIONS: u8 = 7;

/// An include at depth 17.
pub const INCLUDE_TOO_DEEP: u8 = 8;

/// A line of more than 4,095 bytes.
pub const LONG_LINE: u8 = 9;

/// Lines of more than 1,048,576 bytes in all.
pub const LONG_SOURCE: u8 = 10;

/// An expression without a value, or a setting without its byte.
pub const BAD_CONDITION: u8 = 11;

/// A comment that is open at the end of its file.
pub const OPEN_COMMENT: u8 = 12;

/// Why a line can't be taken.
#[derive(Clone, Copy, Debug, PartialEq, Eq)]
pub enum Refusal {
    /// A fault of the source, by its number from 1 to 12.
    Fault(u8),
    /// Want of memory.
    Memory,
}

impl From<Memory> for Refusal {
    ghost use Rattle.std.specs.Prelude.{◌≡◌};
    ghost use Rattle.pawn_pre.specs.declared.refusal.Refusal.TheVariants as refusal;

    ghost from_gives = { λ _ e. e ≡ refusal.Memory };

    fn from(_: Memory) -> Refusal {
        Refusal::Memory
    }
}
