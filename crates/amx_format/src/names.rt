ghost use Rattle.std.specs.Prelude.{◌≡◌, ◌-◌, ◌<◌, ◌≤◌, drop, length, slice_index, take, IfOk};
ghost use Rattle.amx_ops.specs.Names.{name_from};
ghost use Rattle.amx_format.specs.NameText.{HasNames};

use super::check::past_last_zero;
use super::header::Header;
use amx_ops::Name;
use pawn_base::{Bytes, Memory};
use std::alloc::Global;
use std::sync::Arc;

/// The bytes in which the names of a file's records stand, and where these begin in the file.
#[derive(Drop)]
pub struct NameText {
    pub text: Arc<Bytes>,
    pub first: u32,
}

/// The name table of a file up to its last zero byte.
pub fn read_names(alloc: Global, bytes: &[u8], header: &Header) -> Result<NameText, Memory>
    requires { header.now.cod ≤ length bytes.now }
    ensures { IfOk result (λ names. HasNames bytes.now names.text.value names.first) }
{
    let past = past_zero(bytes, header.cod as usize);
    let text = Bytes::from_slice(alloc, part(bytes, header.names as usize, past))?;
    match Arc::new(alloc, text) {
        Ok(text) => Ok(NameText {
            text,
            first: header.names,
        }),
        Err(_bytes) => Err(Memory),
    }
}

/// The place behind the last zero byte before another place, or 0.
fn past_zero(bytes: &[u8], end: usize) -> usize
    requires { end ≤ length bytes.now }
    ensures within { result ≤ length bytes.now }
    ensures zero { 0 < result → slice_index bytes.now (result - 1) ≡ 0 }
{
    past_last_zero(&bytes[..end])
}

/// The bytes from a place to another, or none where the places fall.
fn part(bytes: &[u8], first: usize, past: usize) -> &[u8]
    requires { past ≤ length bytes.now }
    ensures part { result.now ≡ drop first (take past bytes.now) }
    ensures few { length result.now ≤ past - first }
{
    if first <= past {
        &bytes[first..past]
    } else {
        b""
    }
}

impl NameText {
    ghost use Rattle.std.specs.Prelude.{List as ListOf, ℕ};

    /// The name at a place of the file. `Memory` says that it isn't among these.
    pub fn name(&self, place: u32) -> Result<Name, Memory>
        ensures { (bytes : ListOf ℕ) → HasNames bytes self.now.text.value self.now.first →
            IfOk result (λ name. name ≡ name_from (drop place bytes)) }
    {
        if place < self.first || self.text.len() <= (place - self.first) as usize {
            return Err(Memory);
        }
        Name::from_text(&self.text, place - self.first)
    }
}
