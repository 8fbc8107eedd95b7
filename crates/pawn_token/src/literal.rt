ghost use Rattle.std.specs.Prelude.{◌≡◌, ◌<◌};
ghost use Rattle.pawn_token.specs.Readers.{GivesCharacter};
ghost use Rattle.pawn_token.specs.Literal.{named, escape, coded, past_semicolon, next};
ghost use Rattle.pawn_token.specs.Literal.{character_at};
ghost use Rattle.pawn_token.specs.Reading.{seen, unit_seen, ReadsText};

use super::class::{Class, behind, byte_at, split};
use super::fault::{BAD_ESCAPE, OPEN_TEXT, TokenFault};
use super::kind::TokenKind;
use super::number::value;
use pawn_base::Bytes;
use std::alloc::Global;

/// A character behind its quote, and what follows it.
pub fn character(control: u8, inside: &[u8]) -> Result<(TokenKind, &[u8]), TokenFault>
    ensures { GivesCharacter control inside.now result }
{
    match single(control, inside) {
        Ok((byte, rest)) => Ok((TokenKind::Number(i32::from(byte)), rest)),
        Err(kind) => Err(TokenFault::Source(kind)),
    }
}

/// The bytes of a text behind its quote, and what follows it.
pub fn text(alloc: Global, control: u8, bytes: &[u8]) -> Result<(Bytes, &[u8]), TokenFault>
    ensures { ReadsText control bytes.now result }
{
    let mut found = Bytes::new(alloc);
    let mut at = bytes;
    loop {
        match next(control, b'"', at) {
            Ok(Some((byte, rest))) => {
                found.push(byte)?;
                at = rest;
            }
            Ok(None) => return Ok((found, behind(at, 1))),
            Err(kind) => return Err(TokenFault::Source(kind)),
        }
    }
}

/// The byte that a letter stands for in an escape.
#[tactic(auto, unfolding(crate::specs::Literal::named))]
fn named(letter: u8) -> Option<u8>
    ensures { result ≡ named letter }
{
    match letter {
        b'a' => Some(7),
        b'b' => Some(8),
        b'e' => Some(27),
        b'f' => Some(12),
        b'n' => Some(10),
        b'r' => Some(13),
        b't' => Some(9),
        b'v' => Some(11),
        _ => None,
    }
}

/// What follows, without the semicolon that may end an escape's digits.
#[tactic(auto, unfolding(crate::specs::Literal::past_semicolon))]
fn past_semicolon(rest: &[u8]) -> &[u8]
    ensures { result.now ≡ past_semicolon rest.now }
{
    if byte_at(rest, 0) == b';' {
        behind(rest, 1)
    } else {
        rest
    }
}

/// The byte whose number the digits at the front write, and what follows.
#[tactic(auto, unfolding(crate::specs::Literal::coded, crate::specs::Literal::byte_of))]
fn coded(base: u8, class: Class, bytes: &[u8]) -> Result<Option<(u8, &[u8])>, u8>
    requires { 0 < base }
    ensures { unit_seen result ≡ coded base class bytes.now }
{
    let (digits, rest) = split(class, bytes);
    if digits.is_empty() {
        return Err(BAD_ESCAPE);
    }
    match value(base, digits, 256) {
        Some(byte) => Ok(Some((byte as u8, past_semicolon(rest)))),
        None => Err(BAD_ESCAPE),
    }
}

/// The byte that an escape stands for, behind the control character, and what follows.
#[tactic(auto, unfolding(crate::specs::Literal::escape, crate::specs::Literal::unnamed))]
fn escape(control: u8, bytes: &[u8]) -> Result<Option<(u8, &[u8])>, u8>
    ensures { unit_seen result ≡ escape control bytes.now }
{
    let [first, ..] = bytes else {
        return Err(BAD_ESCAPE);
    };
    let rest = behind(bytes, 1);
    if let Some(byte) = named(*first) {
        return Ok(Some((byte, rest)));
    }
    if *first == control {
        return Ok(Some((control, rest)));
    }
    match *first {
        b'\'' | b'"' | b'%' => Ok(Some((*first, rest))),
        b'0'..=b'9' => coded(10, Class::Digit, bytes),
        b'x' => coded(16, Class::Hexadecimal, rest),
        _ => Err(BAD_ESCAPE),
    }
}

/// The next byte of a literal and what follows, or None at its end.
#[tactic(auto, unfolding(crate::specs::Literal::next))]
fn next(control: u8, quote: u8, bytes: &[u8]) -> Result<Option<(u8, &[u8])>, u8>
    ensures { unit_seen result ≡ next control quote bytes.now }
{
    let [first, ..] = bytes else {
        return Err(OPEN_TEXT);
    };
    let rest = behind(bytes, 1);
    if *first == control {
        escape(control, rest)
    } else if *first == quote {
        Ok(None)
    } else {
        Ok(Some((*first, rest)))
    }
}

/// The byte of a character behind its quote, and what follows it.
#[tactic(auto, unfolding(crate::specs::Literal::character_at))]
fn single(control: u8, inside: &[u8]) -> Result<(u8, &[u8]), u8>
    ensures { seen result ≡ character_at control inside.now }
{
    let Some((byte, end)) = next(control, b'\'', inside)? else {
        return Err(OPEN_TEXT);
    };
    match next(control, b'\'', end) {
        Ok(None) => Ok((byte, behind(end, 1))),
        Ok(Some(_)) | Err(_) => Err(OPEN_TEXT),
    }
}
