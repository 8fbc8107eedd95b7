ghost use Rattle.std.specs.Prelude.{◌≡◌, ◌≤◌, length, IfOk, if◌then◌else◌, None, false};
ghost use Rattle.pawn_pre.specs.Blanks.{past_blanks};
ghost use Rattle.pawn_pre.specs.Defined as spec;
ghost use Rattle.pawn_pre.specs.AskedFor.{IsAsked};

use super::blanks::{past_blanks, split_word};
use super::define::begins_name;
use super::quote::Quote;
use super::substitution::begins_whole_name;
use super::table::Table;
use pawn_base::{Bytes, Memory};
use pawn_token::{Class, is_in};
use std::alloc::Global;

/// A name that `defined` asks for, and the bytes behind it.
#[derive(Clone, Copy, Debug)]
struct Question<'a> {
    name: &'a [u8],
    rest: &'a [u8],
}

impl Table {
    /// A condition with each `defined NAME` replaced.
    #[tactic(auto, unfolding(crate::specs::Defined::answered))]
    pub(crate) fn answered(&self, alloc: Global, control: u8, bytes: &[u8]) -> Result<Bytes, Memory>
        ensures { IfOk result (λ out.
            out ≡ spec.answered self.now control Quote.Outside false 0 bytes.now) }
    {
        let mut out = Bytes::new(alloc);
        let mut quote = Quote::Outside;
        let mut joined = false;
        let mut left: usize = 0;
        for (i, byte) in bytes.iter().enumerate() {
            let begins = begins_whole_name(quote, joined, *byte);
            quote = quote.after(control, *byte);
            joined = is_in(Class::NameByte, *byte);
            if left > 0 {
                left -= 1;
                continue;
            }
            let rest = bytes.split_at(i).1;
            match defined_at(begins, rest) {
                Some(question) => {
                    out.push(self.digit(question.name))?;
                    left = (rest.len() - 1).saturating_sub(question.rest.len());
                    continue;
                }
                None => {
                    out.push(*byte)?;
                    continue;
                }
            }
        }
        Ok(out)
    }

    fn digit(&self, name: &[u8]) -> u8
        ensures { result ≡ spec.digit self.now name.now }
    {
        if self.find(name).is_some() {
            b'1'
        } else {
            b'0'
        }
    }
}

fn bare(bytes: &[u8]) -> Option<Question<'_>>
    ensures { IsAsked (spec.bare bytes.now) result }
{
    if !begins_name(bytes) {
        return None;
    }
    let (name, rest) = split_word(bytes);
    Some(Question { name, rest })
}

/// A closing parenthesis has to stand behind.
fn closed(question: Question<'_>) -> Option<Question<'_>>
    ensures { IsAsked (spec.closed_by question.entry.name.now
        (past_blanks question.entry.rest.now)) result }
{
    match past_blanks(question.rest) {
        [b')', rest @ ..] => Some(Question {
            name: question.name,
            rest,
        }),
        _ => None,
    }
}

/// The name, in one pair of parentheses or in none.
fn asked_behind(bytes: &[u8]) -> Option<Question<'_>>
    ensures { IsAsked (spec.asked_behind bytes.now) result }
{
    let bytes = past_blanks(bytes);
    match bytes {
        [b'(', inner @ ..] => match bare(past_blanks(inner)) {
            Some(question) => closed(question),
            None => None,
        },
        _ => bare(bytes),
    }
}

/// `defined` and a name, where a whole name begins.
fn defined_at(begins: bool, bytes: &[u8]) -> Option<Question<'_>>
    ensures { IsAsked (if begins then spec.defined_at bytes.now else None) result }
{
    let (word, behind) = split_word(bytes);
    if begins && word == b"defined".as_slice() {
        asked_behind(behind)
    } else {
        None
    }
}
