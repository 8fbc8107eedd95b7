ghost use Rattle.std.specs.Prelude.{◌≡◌, ◌<◌, ◌≤◌, ◌^◌, length};
ghost use Rattle.std.specs.Char.{digit_value};
ghost use Rattle.std.specs.Option.{SomeIff};
ghost use Rattle.std.specs.Str.Parse.{digits_value};
ghost use Rattle.pawn_token.specs.Readers.{Gives};
ghost use Rattle.pawn_token.specs.Forms.{Numeral, kind_of};
ghost use Rattle.pawn_token.specs.Number.{prefix, digit_class, base, is_glued};
ghost use Rattle.pawn_token.specs.Reading.{radix_at, past_digits, number_value};

use super::class::{Class, behind, byte_at, is_in, split};
use super::fault::{BAD_NUMBER, NUMBER_TOO_WIDE, TokenFault};
use super::kind::TokenKind;

/// What a number is written in.
#[derive(Clone, Copy)]
pub enum Radix {
    Ten,
    /// Behind `0x`.
    Sixteen,
    /// Behind `0b`.
    Two,
}

/// The value of digits, where it is below a limit of at most 2^32.
pub fn value(base: u8, digits: &[u8], limit: u64) -> Option<u64>
    requires some { 0 < limit }
    requires limited { limit ≤ 2 ^ 32 }
    requires positive { 0 < base }
    ensures { SomeIff result (digits_value base digits.now < limit) (digits_value base digits.now) }
{
    let mut sum = 0;
    for byte in digits {
        let next = sum * u64::from(base) + u64::from(digit(*byte));
        if next >= limit {
            return None;
        }
        sum = next;
    }
    Some(sum)
}

/// The number at the front, and what follows it.
pub fn number(bytes: &[u8]) -> Result<(TokenKind, &[u8]), TokenFault>
    ensures { let radix = radix_at bytes.now in let rest = past_digits radix bytes.now in
        Gives (kind_of (Numeral (number_value radix bytes.now)) rest) rest result }
{
    number_in(radix_at(bytes), bytes)
}

impl Radix {
    fn prefix_length(self) -> usize
        ensures { result ≡ length (prefix self) }
    {
        match self {
            Radix::Ten => 0,
            Radix::Sixteen | Radix::Two => 2,
        }
    }

    fn digits(self) -> Class
        ensures { result ≡ digit_class self }
    {
        match self {
            Radix::Ten => Class::Digit,
            Radix::Sixteen => Class::Hexadecimal,
            Radix::Two => Class::Binary,
        }
    }

    fn base(self) -> u8
        ensures { result ≡ base self }
    {
        match self {
            Radix::Ten => 10,
            Radix::Sixteen => 16,
            Radix::Two => 2,
        }
    }
}

/// The value of a digit, by its letter also.
fn digit(byte: u8) -> u8
    ensures { result ≡ digit_value byte }
{
    match byte {
        b'0'..=b'9' => byte - b'0',
        b'A'..=b'Z' => byte - b'A' + 10,
        b'a'..=b'z' => byte - b'a' + 10,
        _ => 36,
    }
}

/// How the number at the front is written.
#[tactic(auto, unfolding(crate::specs::Reading::radix_at))]
fn radix_at(bytes: &[u8]) -> Radix
    ensures { result ≡ radix_at bytes.now }
{
    let prefix = (byte_at(bytes, 0), byte_at(bytes, 1));
    let digit = byte_at(bytes, 2);
    if prefix == (b'0', b'x') && is_in(Class::Hexadecimal, digit) {
        Radix::Sixteen
    } else if prefix == (b'0', b'b') && is_in(Class::Binary, digit) {
        Radix::Two
    } else {
        Radix::Ten
    }
}

/// What must not stand behind a number.
#[tactic(auto, unfolding(crate::specs::Number::is_glued))]
fn is_glued(rest: &[u8]) -> bool
    ensures { result ≡ is_glued rest.now }
{
    let next = byte_at(rest, 0);
    is_in(Class::NameStart, next) || next == b'.' && is_in(Class::Digit, byte_at(rest, 1))
}

/// The number at the front in a radix, and what follows it.
#[tactic(auto, unfolding(crate::specs::Number::cell_of))]
fn number_in(radix: Radix, bytes: &[u8]) -> Result<(TokenKind, &[u8]), TokenFault>
    ensures { let rest = past_digits radix bytes.now in
        Gives (kind_of (Numeral (number_value radix bytes.now)) rest) rest result }
{
    let (digits, rest) = split(radix.digits(), behind(bytes, radix.prefix_length()));
    if is_glued(rest) {
        return Err(TokenFault::Source(BAD_NUMBER));
    }
    match value(radix.base(), digits, 1 << 32) {
        Some(value) => Ok((TokenKind::Number((value as u32).cast_signed()), rest)),
        None => Err(TokenFault::Source(NUMBER_TOO_WIDE)),
    }
}
