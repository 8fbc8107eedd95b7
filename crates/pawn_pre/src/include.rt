ghost use Rattle.std.specs.Prelude.{◌≡◌, ◌==◌, IfOk, IsTrue, position};
ghost use Rattle.std.specs.Str.{IsAscii};
ghost use Rattle.std.specs.List.{list_any};
ghost use Rattle.pawn_pre.specs.Include as spec;

use super::blanks::{past_blanks, trimmed_end};
use pawn_base::{Bytes, Memory};
use std::alloc::Global;

/// The name that an include asks for, and whether it can be asked for.
#[derive(Debug, Drop)]
pub struct Named {
    pub name: Bytes,
    pub valid: bool,
}

/// The name behind `#include` or `#tryinclude`.
pub fn include_name(alloc: Global, rest: &[u8]) -> Result<Named, Memory>
    ensures named { IfOk result (λ found. found ≡ spec.include_name rest.now) }
    ensures ascii { IfOk result (λ found. IsTrue found.valid → IsAscii found.name) }
{
    let bytes = past_blanks(rest);
    match bytes {
        [b'"', behind @ ..] => closed_by(alloc, b'"', behind),
        [b'<', behind @ ..] => closed_by(alloc, b'>', behind),
        _ => name_of(alloc, true, trimmed_end(bytes)),
    }
}

fn is_ascii(name: &[u8]) -> bool
    ensures { result ≡ spec.is_ascii name.now }
{
    name.iter().all(|byte| *byte < 128)
}

fn has_dot(name: &[u8]) -> bool
    ensures { result ≡ list_any (λ b. b == 46) name.now }
{
    name.iter().any(|byte| *byte == b'.')
}

#[tactic(auto, using(crate::proofs::AsciiLaws::named_ascii))]
fn name_of(alloc: Global, closed: bool, bytes: &[u8]) -> Result<Named, Memory>
    ensures named { IfOk result (λ found. found ≡ spec.named closed bytes.now) }
    ensures ascii { IfOk result (λ found. IsTrue found.valid → IsAscii found.name) }
{
    let mut name = Bytes::from_slice(alloc, bytes)?;
    if !has_dot(bytes) {
        name.append(b".inc".as_slice())?;
    }
    Ok(Named {
        name,
        valid: closed && !bytes.is_empty() && is_ascii(bytes),
    })
}

fn sign_at(sign: u8, bytes: &[u8]) -> Option<usize>
    ensures { result ≡ position (λ b. b == sign) bytes.now }
{
    bytes.iter().position(|byte| *byte == sign)
}

/// The bytes up to the closing sign.
fn closed_by(alloc: Global, sign: u8, bytes: &[u8]) -> Result<Named, Memory>
    ensures named { IfOk result (λ found. found ≡ spec.name_up_to sign bytes.now) }
    ensures ascii { IfOk result (λ found. IsTrue found.valid → IsAscii found.name) }
{
    match sign_at(sign, bytes) {
        Some(len) => name_of(alloc, true, bytes.split_at(len).0),
        None => name_of(alloc, false, bytes),
    }
}
