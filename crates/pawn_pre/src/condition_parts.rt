ghost use Rattle.std.specs.Prelude.{◌≡◌, ◌<◌, IfOk, length};
ghost use Rattle.pawn_pre.specs.ConditionParts as spec;

use super::part::{Part, part_of};
use pawn_base::{List, Memory};
use pawn_token::{Class, TokenFault, is_in, read_token};
use std::alloc::Global;

/// A part, and how many bytes spell it.
#[derive(Clone, Copy, Debug, PartialEq, Eq)]
pub struct Step {
    pub part: Part,
    pub size: usize,
}

/// The parts of a text, or nothing where some token may not stand in a condition.
#[tactic(auto, unfolding(crate::specs::ConditionParts::parts_from, crate::specs::ConditionParts::with_parts))]
pub fn parts(alloc: Global, control: u8, text: &[u8]) -> Result<Option<List<Part>>, Memory>
    ensures { IfOk result (λ parts. parts ≡ spec.parts_from control 0 text.now) }
{
    let mut parts = List::new(alloc);
    let mut left: usize = 0;
    for (i, byte) in text.iter().enumerate() {
        if left > 0 {
            left -= 1;
            continue;
        }
        if is_in(Class::Blank, *byte) {
            continue;
        }
        match step_at(alloc, control, text.split_at(i).1)? {
            Some(step) => {
                parts.push(step.part)?;
                left = step.size.saturating_sub(1);
                continue;
            }
            None => return Ok(None),
        }
    }
    Ok(Some(parts))
}

/// The part in front, where no blank stands, if one may stand in a condition.
fn step_at(alloc: Global, control: u8, bytes: &[u8]) -> Result<Option<Step>, Memory>
    requires { 0 < length bytes.now }
    ensures { IfOk result (λ step. step ≡ spec.step_at control bytes.now) }
{
    let (kind, rest) = match read_token(alloc, control, false, bytes) {
        Ok(read) => read,
        Err(TokenFault::Source(_)) => return Ok(None),
        Err(TokenFault::Memory) => return Err(Memory),
    };
    let size = bytes.len().saturating_sub(rest.len());
    match part_of(&kind) {
        Some(part) => Ok(Some(Step { part, size })),
        None => Ok(None),
    }
}
