ghost use Rattle.std.specs.Prelude.{◌≡◌, ◌==◌, [], IfOk, position};
ghost use Rattle.std.specs.List.{list_any};
ghost use Rattle.std.specs.Option.{option_map};
ghost use Rattle.pawn_token.specs.Class as class;
ghost use Rattle.pawn_pre.specs.Define as spec;

use super::blanks::{past_blanks, split_word, trimmed};
use super::piece::{Piece, follower, pieces};
use super::rule::Rule;
use pawn_base::{Bytes, Memory};
use pawn_token::{Class, is_in};
use std::alloc::Global;
use std::collections::VecDeque;

/// What a `#define` defines (Language Guide, "Directives", on `#define`).
#[derive(Debug, Drop)]
pub struct Definition {
    pub key: Bytes,
    pub rule: Rule,
}

/// A name stands in front.
pub fn begins_name(bytes: &[u8]) -> bool
    ensures { result ≡ spec.begins_name bytes.now }
{
    match bytes {
        [first, ..] => is_in(Class::NameStart, *first),
        [] => false,
    }
}

/// The definition behind `#define`, or nothing where its pattern or text is bad: the pattern is a
/// name and a tail up to the first blank, and the text uses only parameters of that tail (Language
/// Guide, "Directives", on `#define`). Literals of the text are told apart by the control
/// character.
///
/// # Errors
///
/// `Memory` for want of memory.
pub fn read_definition(
    alloc: Global,
    control: u8,
    rest: &[u8],
) -> Result<Option<Definition>, Memory>
    ensures { IfOk result (λ found. found ≡ spec.definition control rest.now) }
{
    let body = past_blanks(rest);
    match first_blank(body) {
        Some(len) => {
            let (pattern, text) = body.split_at(len);
            of_parts(alloc, control, pattern, trimmed(text))
        }
        None => of_parts(alloc, control, body, trimmed(&[])),
    }
}

/// The key behind `#undef`, or nothing where no name stands there (Language Guide, "Directives").
pub fn undefined(rest: &[u8]) -> Option<&[u8]>
    ensures { option_map (λ key. key.now) result ≡ spec.undefined rest.now }
{
    let bytes = past_blanks(rest);
    if begins_name(bytes) {
        Some(split_word(bytes).0)
    } else {
        None
    }
}

/// Each parameter stands once, and a byte follows it.
#[tactic(auto, unfolding(crate::specs::Define::is_tail))]
fn is_tail(alloc: Global, tail: &[Piece]) -> Result<bool, Memory>
    ensures { IfOk result (λ good. good ≡ spec.is_tail [] tail.now) }
{
    let mut seen = VecDeque::new(alloc);
    let mut left = tail;
    while let [piece, behind @ ..] = left {
        left = behind;
        match *piece {
            Piece::Byte(_) => continue,
            Piece::Param(number) => {
                if follower(behind).is_none() || contains(&seen, number) {
                    return Ok(false);
                }
                seen.push_front(number)?;
                continue;
            }
        }
    }
    Ok(true)
}

fn contains(seen: &VecDeque<u8>, number: u8) -> bool
    ensures { result ≡ list_any (λ m. m == number) seen.now.items }
{
    seen.iter().any(|known| *known == number)
}

fn is_param(number: u8, piece: Piece) -> bool
    ensures { result ≡ spec.is_param number piece }
{
    match piece {
        Piece::Byte(_) => false,
        Piece::Param(other) => other == number,
    }
}

fn has_param(tail: &[Piece], number: u8) -> bool
    ensures { result ≡ list_any (spec.is_param number) tail.now }
{
    tail.iter().any(|other| is_param(number, *other))
}

fn is_known(tail: &[Piece], piece: Piece) -> bool
    ensures { result ≡ spec.is_known tail.now piece }
{
    match piece {
        Piece::Byte(_) => true,
        Piece::Param(number) => has_param(tail, number),
    }
}

/// A text's parameters stand in the tail.
fn is_text(tail: &[Piece], text: &[Piece]) -> bool
    ensures { result ≡ spec.is_text tail.now text.now }
{
    text.iter().all(|piece| is_known(tail, *piece))
}

/// The definition of a pattern and a text, or nothing where one of them is bad.
fn of_parts(
    alloc: Global,
    control: u8,
    pattern: &[u8],
    text: &[u8],
) -> Result<Option<Definition>, Memory>
    ensures { IfOk result (λ found. found ≡ spec.of_parts control pattern.now text.now) }
{
    let (key, behind) = split_word(pattern);
    let tail = pieces(alloc, None, behind)?;
    let parts = pieces(alloc, Some(control), text)?;
    let good_tail = is_tail(alloc, tail.as_slice())?;
    let good_text = is_text(tail.as_slice(), parts.as_slice());
    if !(begins_name(pattern) && good_tail && good_text) {
        return Ok(None);
    }
    let key = Bytes::from_slice(alloc, key)?;
    let text = Bytes::from_slice(alloc, text)?;
    Ok(Some(Definition {
        key,
        rule: Rule { tail, text },
    }))
}

fn first_blank(bytes: &[u8]) -> Option<usize>
    ensures { result ≡ position (class.is_in Class.Blank) bytes.now }
{
    bytes.iter().position(|byte| is_in(Class::Blank, *byte))
}
