ghost use Rattle.std.specs.Prelude.{◌≡◌, ◌≤◌, Option, Some, None, [], IfOk, IfSome, length};
ghost use Rattle.std.specs.Option.{option_map};
ghost use Rattle.pawn_pre.specs.Group as spec;
ghost use Rattle.pawn_pre.specs.GroupScan as scan;
ghost use Rattle.pawn_pre.specs.Steps.{Steps};

use super::quote::{Quote, is_quote_mark};
use pawn_base::Memory;
use std::alloc::Global;
use std::collections::VecDeque;

/// What a byte is to a parameter.
#[derive(Clone, Copy, Debug, PartialEq, Eq)]
pub enum Step {
    /// The byte that follows the parameter.
    Here,
    /// A bracket that closes nothing here.
    Fails,
    /// A part of the parameter.
    On,
}

/// The groups and the literal that are open in a parameter.
#[derive(Debug, Drop)]
struct Group {
    /// The brackets that are awaited, the innermost first.
    awaited: VecDeque<u8>,
    quote: Quote,
}

/// How many bytes a parameter takes that `end` follows.
pub fn reach(alloc: Global, control: u8, end: u8, bytes: &[u8]) -> Result<Option<usize>, Memory>
    ensures taken { IfOk result (λ taken. taken ≡ spec.reach control end bytes.now) }
    ensures within { IfOk result (λ taken. IfSome taken (λ len. len ≤ length bytes.now)) }
{
    reach_bytewise(alloc, control, end, bytes)
}

/// The bracket that closes a group.
fn closer_of(byte: u8) -> Option<u8>
    ensures { result ≡ spec.closer_of byte }
{
    match byte {
        b'(' => Some(b')'),
        b'[' => Some(b']'),
        b'{' => Some(b'}'),
        _ => None,
    }
}

fn is_closer(byte: u8) -> bool
    ensures { result ≡ spec.is_closer byte }
{
    byte == b')' || byte == b']' || byte == b'}'
}

impl Group {
    /// Takes the next byte of a parameter that `end` follows.
    #[tactic(auto, unfolding(crate::specs::GroupScan::look))]
    fn take(&mut self, control: u8, end: u8, byte: u8) -> Result<Step, Memory>
        ensures { IfOk result (λ step. Steps
            (scan.look control end self.old.awaited.items self.old.quote byte)
            step self.new.awaited.items self.new.quote) }
    {
        if !self.quote.is_outside() {
            self.quote = self.quote.after(control, byte);
            return Ok(Step::On);
        }
        if self.awaited.is_empty() && byte == end {
            return Ok(Step::Here);
        }
        if is_quote_mark(byte) {
            self.quote = Quote::Within(byte);
            return Ok(Step::On);
        }
        if let Some(closer) = closer_of(byte) {
            self.awaited.push_front(closer)?;
            return Ok(Step::On);
        }
        if !is_closer(byte) {
            return Ok(Step::On);
        }
        match self.awaited.pop_front() {
            Some(closer) if closer == byte => Ok(Step::On),
            _ => Ok(Step::Fails),
        }
    }
}

/// The same, byte by byte.
#[tactic(auto, unfolding(crate::specs::GroupScan::reach_bytewise))]
fn reach_bytewise(
    alloc: Global,
    control: u8,
    end: u8,
    bytes: &[u8],
) -> Result<Option<usize>, Memory>
    ensures taken { IfOk result (λ taken.
        taken ≡ scan.reach_bytewise control end [] Quote.Outside bytes.now) }
    ensures within { IfOk result (λ taken. IfSome taken (λ len. len ≤ length bytes.now)) }
{
    let mut group = Group {
        awaited: VecDeque::new(alloc),
        quote: Quote::Outside,
    };
    for (i, byte) in bytes.iter().enumerate() {
        match group.take(control, end, *byte)? {
            Step::Here => return Ok(Some(i)),
            Step::Fails => return Ok(None),
            Step::On => continue,
        }
    }
    Ok(None)
}
