ghost use Rattle.std.specs.Prelude.{◌≡◌, ◌<◌, ◌↔◌, length, IsTrue};
ghost use Rattle.pawn_token.specs.declared.class.Class.TheVariants as class;
ghost use Rattle.pawn_token.specs.Determined.{IsDetermined};
ghost use Rattle.pawn_token.specs.Readers.{Gives, GivesSign, GivesText, IsRead};
ghost use Rattle.pawn_token.specs.Class.{run, after, byte_at};
ghost use Rattle.pawn_token.specs.Forms.{Word, kind_of};

use super::class::{Class, behind, byte_at, is_in, split};
use super::fault::{BAD_BYTE, NAME_TOO_LONG, TokenFault};
use super::kind::TokenKind;
use super::literal::{character, text};
use super::number::number;
use super::table::{key_of, sign_at};
use pawn_base::Bytes;
use std::alloc::Global;

/// The most bytes of a name.
pub const NAME_LIMIT: usize = 31;

/// The token at the front under a control character, and what follows it (Language Guide, "General
/// syntax"). A text is packed as told; behind a `!` it is of the other packing.
///
/// # Errors
///
/// The fault that stands there in place of a token, or `Memory` for want of memory.
#[tactic(auto, using(crate::proofs::OneLaws::is_determined))]
pub fn read_token(
    alloc: Global,
    control: u8,
    packed: bool,
    bytes: &[u8],
) -> Result<(TokenKind, &[u8]), TokenFault>
    requires { 0 < length bytes.now }
    ensures answer { IsRead control packed bytes.now result }

    // Nothing else stands there.
    ensures determined { IsDetermined control packed }
{
    let first = byte_at(bytes, 0);
    if is_in(Class::NameStart, first) {
        word(alloc, bytes)
    } else if is_in(Class::Digit, first) {
        number(bytes)
    } else if first == b'\'' {
        character(control, behind(bytes, 1))
    } else if first == b'"' {
        literal(alloc, control, packed, behind(bytes, 1))
    } else if is_turned(bytes) {
        literal(alloc, control, !packed, behind(bytes, 2))
    } else {
        mark(bytes)
    }
}

/// Whether a text of the other packing is opened.
fn is_turned(bytes: &[u8]) -> bool
    ensures { IsTrue result ↔ ((byte_at bytes.now 0 ≡ 33) × (byte_at bytes.now 1 ≡ 34)) }
{
    byte_at(bytes, 0) == b'!' && byte_at(bytes, 1) == b'"'
}

/// The name or key word at the front, and what follows it.
fn word(alloc: Global, bytes: &[u8]) -> Result<(TokenKind, &[u8]), TokenFault>
    ensures { let rest = after class.NameByte bytes.now in
        Gives (kind_of (Word (run class.NameByte bytes.now)) rest) rest result }
{
    let (word, rest) = split(Class::NameByte, bytes);
    match key_of(word) {
        Some(key) => Ok((TokenKind::Key(key), rest)),
        None if word.len() <= NAME_LIMIT => {
            let name = Bytes::from_slice(alloc, word)?;
            Ok((TokenKind::Name(name), rest))
        }
        None => Err(TokenFault::Source(NAME_TOO_LONG)),
    }
}

/// The text behind its quote, and what follows it.
fn literal(
    alloc: Global,
    control: u8,
    packed: bool,
    inside: &[u8],
) -> Result<(TokenKind, &[u8]), TokenFault>
    ensures { GivesText control packed inside.now result }
{
    let (bytes, rest) = text(alloc, control, inside)?;
    Ok((TokenKind::Text { bytes, packed }, rest))
}

/// The sign in front, and what follows it.
fn mark(bytes: &[u8]) -> Result<(TokenKind, &[u8]), TokenFault>
    ensures { GivesSign bytes.now result }
{
    match sign_at(bytes) {
        Some(sign) => Ok((TokenKind::Sign(sign), behind(bytes, sign.spelling().len()))),
        None => Err(TokenFault::Source(BAD_BYTE)),
    }
}
