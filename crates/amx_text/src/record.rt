ghost use Rattle.std.specs.Prelude.{◌≡◌, IfOk};
ghost use Rattle.amx_text.specs.Readers.{Gives, kind_at, any_kind_at, ReadsRecord};

use super::kind::Kind;
use super::reader::{after_word, cell_at, name_at};
use amx_ops::{Name, Record};
use pawn_base::{Bytes, Memory};
use std::alloc::Global;

/// The table that the word at a text's front names, this one or a later one, and what stands behind
/// the word and its blank.
pub fn kind_at(from: Kind, text: &[u8]) -> Option<(Kind, &[u8])>
    ensures { Gives (kind_at from text.now) result }
{
    let (kind, rest) = any_kind_at(text)?;
    if from.place() <= kind.place() {
        Some((kind, rest))
    } else {
        None
    }
}

fn any_kind_at(text: &[u8]) -> Option<(Kind, &[u8])>
    ensures { Gives (any_kind_at text.now) result }
{
    if let Some(rest) = after_word(text, b"public ") {
        Some((Kind::Public, rest))
    } else if let Some(rest) = after_word(text, b"native ") {
        Some((Kind::Native, rest))
    } else if let Some(rest) = after_word(text, b"library ") {
        Some((Kind::Library, rest))
    } else if let Some(rest) = after_word(text, b"variable ") {
        Some((Kind::Variable, rest))
    } else {
        Some((Kind::Tag, after_word(text, b"tag ")?))
    }
}

/// The record whose line goes on so behind its word, and what stands behind the line.
pub fn record_at(alloc: Global, text: &[u8]) -> Result<Option<(Record, &[u8])>, Memory>
    ensures { ReadsRecord text.now result }
{
    let Some((address, rest)) = cell_at(text) else {
        return Ok(None);
    };
    let Some(rest) = after_word(rest, b" \"") else {
        return Ok(None);
    };
    let Some((name, rest)) = name_at(alloc, rest)? else {
        return Ok(None);
    };
    match after_word(rest, b"\n") {
        Some(rest) => Ok(Some((record_of(alloc, address, name)?, rest))),
        None => Ok(None),
    }
}

/// A record with a name of its own bytes.
fn record_of(alloc: Global, address: i32, name: Bytes) -> Result<Record, Memory>
    ensures { IfOk result (λ it. it ≡ record { address = address; name = name }) }
{
    let name = Name::from_bytes(alloc, name)?;
    Ok(Record { address, name })
}
