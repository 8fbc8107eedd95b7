ghost use Rattle.std.specs.Prelude.{◌≡◌, ◌≤◌, ◌+◌, ◌==◌, ◌++◌, if◌then◌else◌, length};
ghost use Rattle.std.specs.Prelude.{IfOk, OnOk, None, false};
ghost use Rattle.std.specs.List.{find};
ghost use Rattle.std.specs.Option.{option_copied};
ghost use Rattle.pawn_pre.specs.declared.matching.Given.{Given as GivenBytes};
ghost use Rattle.pawn_pre.specs.Substitution as spec;
ghost use Rattle.pawn_pre.specs.Expansion.{Tells, IsPlace, IsSpot, up_to_long};

use super::blanks::split_word;
use super::matching::{Given, matched};
use super::piece::{Piece, pieces};
use super::quote::Quote;
use super::refusal::{LONG_LINE, Refusal, TOO_MANY_SUBSTITUTIONS};
use super::table::Table;
use pawn_base::{Bytes, Memory};
use pawn_token::{Class, is_in};
use std::alloc::Global;

/// The most bytes that a line has.
const LONGEST: usize = 4095;

/// The most substitutions in a line.
const MOST_STEPS: u32 = 1000;

/// A place that was replaced: the bytes before it, and what stands from it on.
#[derive(Debug, Drop)]
struct Spot<'a> {
    before: &'a [u8],
    after: Bytes,
}

/// Whether two parts of a line have too many bytes together.
pub fn is_long(front: usize, back: usize) -> bool
    ensures { result ≡ spec.is_long (front + back) }
{
    front > LONGEST || back > LONGEST - front
}

impl Table {
    /// A line with each name that is defined replaced, from a cursor on that never goes back, at
    /// most 1,000 times (Language Guide, "Preprocessor", on text substitution). Literals are told
    /// apart by the control character.
    ///
    /// # Errors
    ///
    /// Fault 7 where one more would be replaced, and 9 where the line has more than 4,095 bytes,
    /// before or after a replacement. `Memory` for want of memory.
    #[tactic(auto, unfolding(crate::specs::Substitution::expanded))]
    pub fn expanded(&self, alloc: Global, control: u8, bytes: &[u8]) -> Result<Bytes, Refusal>
        ensures { Tells (spec.expanded self.now control bytes.now) result }
    {
        if is_long(bytes.len(), 0) {
            return Err(Refusal::Fault(LONG_LINE));
        }
        let mut done = Bytes::new(alloc);
        let mut after = Bytes::from_slice(alloc, bytes)?;
        let mut left = MOST_STEPS;
        while let Some(spot) = self.substituted(alloc, control, after.as_slice())? {
            if left == 0 {
                return Err(Refusal::Fault(TOO_MANY_SUBSTITUTIONS));
            }
            left -= 1;
            let Spot {
                before,
                after: next,
            } = spot;
            done.append(before)?;
            after = next;
            if is_long(done.len(), after.len()) {
                return Err(Refusal::Fault(LONG_LINE));
            }
        }
        done.append(after.as_slice())?;
        Ok(done)
    }

    /// Where the key in front has a definition whose tail matches, what stands from there on.
    #[tactic(auto, unfolding(crate::specs::Substitution::place_at), using(crate::proofs::CutLaws::cut_behind))]
    fn place_at(&self, alloc: Global, control: u8, bytes: &[u8]) -> Result<Option<Bytes>, Memory>
        ensures { IfOk result (λ after.
            IsPlace (spec.place_at self.now control bytes.now) after) }
    {
        let (name, behind) = split_word(bytes);
        let Some(rule) = self.find(name) else {
            return Ok(None);
        };
        let Some(found) = matched(alloc, control, rule.tail.as_slice(), behind)? else {
            return Ok(None);
        };
        let text = pieces(alloc, Some(control), rule.text.as_slice())?;
        let mut after = filled(alloc, found.given.as_slice(), text.as_slice())?;
        after.append(found.rest)?;
        Ok(Some(after))
    }

    /// The same where a whole name begins there.
    fn place_if(
        &self,
        alloc: Global,
        begins: bool,
        control: u8,
        bytes: &[u8],
    ) -> Result<Option<Bytes>, Memory>
        ensures { IfOk result (λ after.
            IsPlace (if begins then spec.place_at self.now control bytes.now else None) after) }
    {
        if begins {
            self.place_at(alloc, control, bytes)
        } else {
            Ok(None)
        }
    }

    /// The first place that matches.
    #[tactic(auto, unfolding(crate::specs::Substitution::substituted, crate::specs::Substitution::with_before))]
    fn substituted<'a>(
        &self,
        alloc: Global,
        control: u8,
        bytes: &'a [u8],
    ) -> Result<Option<Spot<'a>>, Memory>
        ensures { IfOk result (λ spot.
            IsSpot (spec.substituted self.now control Quote.Outside false bytes.now) spot) }
    {
        let mut quote = Quote::Outside;
        let mut joined = false;
        for (i, byte) in bytes.iter().enumerate() {
            let begins = begins_whole_name(quote, joined, *byte);
            let (before, rest) = bytes.split_at(i);
            match self.place_if(alloc, begins, control, rest)? {
                Some(after) => return Ok(Some(Spot { before, after })),
                None => {
                    quote = quote.after(control, *byte);
                    joined = is_in(Class::NameByte, *byte);
                    continue;
                }
            }
        }
        Ok(None)
    }
}

/// Whether a whole name begins with a byte.
pub fn begins_whole_name(quote: Quote, joined: bool, byte: u8) -> bool
    ensures { result ≡ spec.begins_whole_name quote joined byte }
{
    quote.is_outside() && !joined && is_in(Class::NameStart, byte)
}

/// What a parameter took.
fn find_given(number: u8, given: &[Given]) -> Option<&Given>
    ensures { option_copied result ≡
        find (λ (taken : GivenBytes). taken.number == number) given.now }
{
    given.iter().find(|taken| taken.number == number)
}

/// Puts bytes at the end, no further than until there are too many for a line.
#[tactic(auto, using(crate::proofs::CutLaws::front_put))]
fn put(bytes: &[u8], out: &mut Bytes) -> Result<(), Memory>
    requires { length out.old ≤ 4096 }
    ensures put { OnOk result (out.new ≡ up_to_long (out.old ++ bytes.now)) }
{
    let room = LONGEST + 1 - out.len();
    let (front, _rest) = bytes.split_at(room.min(bytes.len()));
    out.append(front)
}

/// Puts what stands in a piece's place. A parameter that took nothing stays as it is.
fn put_piece(piece: Piece, given: &[Given], out: &mut Bytes) -> Result<(), Memory>
    requires { length out.old ≤ 4096 }
    ensures put { OnOk result (out.new ≡ up_to_long (out.old ++ spec.bytes_for given.now piece)) }
{
    match piece {
        Piece::Byte(byte) => put(&[byte], out),
        Piece::Param(number) => match find_given(number, given) {
            Some(taken) => put(taken.bytes.as_slice(), out),
            None => put(&[b'%', number], out),
        },
    }
}

/// A text with what the parameters took, no further than until it is too long for a line.
fn filled(alloc: Global, given: &[Given], text: &[Piece]) -> Result<Bytes, Memory>
    ensures { IfOk result (λ out. out ≡ up_to_long (spec.filled given.now text.now)) }
{
    let mut out = Bytes::new(alloc);
    for piece in text {
        if is_long(out.len(), 0) {
            return Ok(out);
        }
        put_piece(*piece, given, &mut out)?;
    }
    Ok(out)
}
