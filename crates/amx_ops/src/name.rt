ghost use Rattle.std.specs.Prelude.{◌≡◌, ◌<◌, ◌≤◌, drop, length, IfOk, MatchOption};
ghost use Rattle.std.specs.Str.{bytes_eq};
ghost use Rattle.amx_ops.specs.Names.{name_from};

use pawn_base::{Bytes, Memory};
use std::alloc::Global;
use std::marker::Model;
use std::sync::Arc;

/// A name, which may share its bytes with others: so names that stand within one another in a
/// file take no more than the file. Contracts see it as a list of numbers below 256.
#[derive(Debug, Drop)]
pub struct Name {
    text: Arc<Bytes>,
    /// Where it begins, if it ends before a zero byte; else it is all of the text.
    start: Option<u32>,
}

impl Model for Name {
    ghost use Rattle.std.specs.Prelude.{List, ℕ};
    ghost use Rattle.std.specs.Coded.{coded_list, coded_ℕ};
    ghost use Rattle.amx_ops.specs.Names.{name_in};

    ghost Value = { List ℕ };

    ghost coded = { coded_list coded_ℕ };

    ghost view = { λ name. name_in name.text.value name.start };
}

impl Name {
    /// A name of its own bytes.
    pub fn from_bytes(alloc: Global, bytes: Bytes) -> Result<Name, Memory>
        ensures { IfOk result (λ name. name ≡ bytes) }
    {
        match Arc::new(alloc, bytes) {
            Ok(text) => Ok(Name { text, start: None }),
            Err(_bytes) => Err(Memory),
        }
    }

    /// The name that begins at a place of a text and ends before a zero byte, or with the text. Its
    /// bytes aren't copied.
    pub fn from_text(text: &Arc<Bytes>, start: u32) -> Result<Name, Memory>
        ensures { IfOk result (λ name. name ≡ name_from (drop start text.now.value)) }
    {
        match Arc::try_clone(text) {
            Ok(text) => Ok(Name {
                text,
                start: Some(start),
            }),
            Err(_full) => Err(Memory),
        }
    }

    /// The same name, whose bytes aren't copied.
    pub fn share(&self) -> Result<Name, Memory>
        ensures { IfOk result (λ name. name ≡ self.now) }
    {
        let start = self.start;
        match Arc::try_clone(&self.text) {
            Ok(text) => Ok(Name { text, start }),
            Err(_full) => Err(Memory),
        }
    }

    /// Its bytes. The end of a name in a file is looked for anew.
    pub fn as_slice(&self) -> &[u8]
        ensures { result.now ≡ self.now }
    {
        let text = self.text.as_slice();
        match self.start {
            None => text,
            Some(start) => name_of(text, start as usize),
        }
    }

    /// Its bytes, or none where they are more than so many, of which no more are looked at.
    pub fn within(&self, most: usize) -> Option<&[u8]>
        ensures { MatchOption result (most < length self.now)
            (λ name. (name.now ≡ self.now) × (length self.now ≤ most)) }
    {
        let text = self.text.as_slice();
        match self.start {
            None => if_within(text, most),
            Some(start) => name_within(text_from(text, start as usize), most),
        }
    }

    /// Whether it is a name; no more of its bytes are looked at than that has.
    pub fn is(&self, name: &[u8]) -> bool
        ensures { result ≡ bytes_eq self.now name.now }
    {
        match self.within(name.len()) {
            None => false,
            Some(bytes) => bytes == name,
        }
    }

    pub fn len(&self) -> usize
        ensures { result ≡ length self.now }
    {
        self.as_slice().len()
    }
}

/// What stands from a place on.
fn text_from(text: &[u8], start: usize) -> &[u8]
    ensures { result.now ≡ drop start text.now }
{
    if start < text.len() {
        &text[start..]
    } else {
        b""
    }
}

fn if_within(text: &[u8], most: usize) -> Option<&[u8]>
    ensures { MatchOption result (most < length text.now)
        (λ name. (name.now ≡ text.now) × (length text.now ≤ most)) }
{
    if text.len() <= most { Some(text) } else { None }
}

/// The name from a place on.
fn name_of(text: &[u8], start: usize) -> &[u8]
    ensures { result.now ≡ name_from (drop start text.now) }
{
    let rest = text_from(text, start);
    match name_within(rest, rest.len()) {
        Some(name) => name,
        None => b"",
    }
}

/// The bytes before the first zero, or none where they are more than so many.
fn name_within(text: &[u8], most: usize) -> Option<&[u8]>
    ensures { MatchOption result (most < length (name_from text.now))
        (λ name. (name.now ≡ name_from text.now) × (length (name_from text.now) ≤ most)) }
{
    for (index, byte) in text.iter().enumerate() {
        if *byte == 0 {
            return Some(&text[..index]);
        }
        if index == most {
            return None;
        }
    }
    Some(text)
}
