ghost use Rattle.std.specs.Prelude.{◌≡◌, ◌≤◌, IfOk, IfSome, length};
ghost use Rattle.pawn_pre.specs.Group.{reach_to};
ghost use Rattle.pawn_pre.specs.Matching as spec;
ghost use Rattle.pawn_pre.specs.Matched.{IsMatched};

use super::blanks::{past_blanks, trimmed};
use super::group::reach;
use super::piece::{Piece, follower};
use pawn_base::{Bytes, List, Memory};
use std::alloc::Global;

/// What a parameter took.
#[derive(Debug, Drop)]
pub struct Given {
    pub number: u8,
    pub bytes: Bytes,
}

/// What the parameters of a tail took, and the bytes behind it.
#[derive(Debug, Drop)]
pub struct TailMatch<'a> {
    pub given: List<Given>,
    pub rest: &'a [u8],
}

/// Matches a tail with the bytes behind its key.
#[tactic(auto, unfolding(crate::specs::Matching::matched, crate::specs::Matching::with_given))]
pub fn matched<'a>(
    alloc: Global,
    control: u8,
    tail: &[Piece],
    bytes: &'a [u8],
) -> Result<Option<TailMatch<'a>>, Memory>
    ensures { IfOk result (λ found.
        IsMatched (spec.matched control tail.now bytes.now) found) }
{
    let mut given = List::new(alloc);
    let mut left = tail;
    let mut rest = bytes;
    while let [piece, behind @ ..] = left {
        left = behind;
        match *piece {
            Piece::Byte(byte) => match past_blanks(rest) {
                [first, after @ ..] if *first == byte => {
                    rest = after;
                    continue;
                }
                _ => return Ok(None),
            },
            Piece::Param(number) => {
                let Some(taken) = param_len(alloc, control, follower(behind), rest)? else {
                    return Ok(None);
                };
                let (front, after) = rest.split_at(taken);
                let bytes = Bytes::from_slice(alloc, trimmed(front))?;
                given.push(Given { number, bytes })?;
                rest = after;
                continue;
            }
        }
    }
    Ok(Some(TailMatch { given, rest }))
}

/// The bytes that a parameter takes, where a byte follows it in the pattern.
fn param_len(
    alloc: Global,
    control: u8,
    end: Option<u8>,
    bytes: &[u8],
) -> Result<Option<usize>, Memory>
    ensures taken { IfOk result (λ taken. taken ≡ reach_to control end bytes.now) }
    ensures within { IfOk result (λ taken. IfSome taken (λ len. len ≤ length bytes.now)) }
{
    match end {
        None => Ok(None),
        Some(end) => reach(alloc, control, end, bytes),
    }
}
