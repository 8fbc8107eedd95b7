ghost use Rattle.std.specs.Prelude.{◌≡◌, ◌++◌, IfOk, OnOk};
ghost use Rattle.pawn_pre.specs.Comments.{clean};
ghost use Rattle.pawn_pre.specs.File.{part_at};
ghost use Rattle.pawn_pre.specs.Quote.{quote_after};
ghost use Rattle.pawn_pre.specs.Scan as spec;

use super::quote::Quote;
use pawn_base::{Bytes, Memory};
use std::alloc::Global;

/// What the bytes of a line so far leave pending.
#[derive(Clone, Copy, Debug, PartialEq, Eq)]
pub enum Mode {
    /// In the text, within a literal or not.
    Reads(Quote),
    /// Behind a `/` of the text, which isn't written yet.
    Slash,
    /// In a comment to the line's end.
    Over,
    /// In a comment of several lines.
    Inside,
    /// In such a comment, behind a `*`.
    Star,
}

/// A line with its comments blanked, and whether one goes on over its end. One may be open where
/// it begins.
#[tactic(auto, unfolding(crate::specs::Scan::before, crate::specs::Scan::scan, crate::specs::Scan::scan_end), using(crate::proofs::CommentLaws::scan_is_clean))]
pub fn clean_line(alloc: Global, was_open: bool, line: &[u8]) -> Result<(Bytes, bool), Memory>
    ensures bytes { IfOk result (λ cleaned.
        cleaned.0 ≡ (clean (part_at was_open) line.now).bytes) }
    ensures unclosed { IfOk result (λ cleaned.
        cleaned.1 ≡ (clean (part_at was_open) line.now).unclosed) }
{
    let mut out = Bytes::new(alloc);
    let mut mode = first_mode(was_open);
    for byte in line {
        mode.write(*byte, &mut out)?;
        mode = mode.after(*byte);
    }
    let goes_on = mode.close(&mut out)?;
    Ok((out, goes_on))
}

/// The mode behind a byte of the text.
fn text_mode(quote: Quote, byte: u8) -> Mode
    ensures { result ≡ Mode.Reads (quote_after 92 quote byte) }
{
    Mode::Reads(quote.after(b'\\', byte))
}

impl Mode {
    /// The mode behind a byte.
    #[tactic(auto, unfolding(crate::specs::Scan::one))]
    fn after(self, byte: u8) -> Mode
        ensures { result ≡ (spec.one self byte).next }
    {
        match (self, byte) {
            (Mode::Reads(quote), b'/') if quote.is_outside() => Mode::Slash,
            (Mode::Reads(quote), _) => text_mode(quote, byte),
            (Mode::Slash, b'/') | (Mode::Over, _) => Mode::Over,
            (Mode::Slash, b'*') => Mode::Inside,
            (Mode::Slash, _) => text_mode(Quote::Outside, byte),
            (Mode::Inside, b'*') | (Mode::Star, b'*') => Mode::Star,
            (Mode::Star, b'/') => Mode::Reads(Quote::Outside),
            (Mode::Inside, _) | (Mode::Star, _) => Mode::Inside,
        }
    }

    /// Puts what a byte writes behind what was written.
    #[tactic(auto, unfolding(crate::specs::Scan::one))]
    fn write(self, byte: u8, out: &mut Bytes) -> Result<(), Memory>
        ensures { IfOk result (λ _. out.new ≡ out.old ++ (spec.one self byte).out) }
    {
        match (self, byte) {
            (Mode::Over | Mode::Inside | Mode::Star, _) => Ok(()),
            (Mode::Slash, b'/' | b'*') => out.push(b' '),
            (Mode::Slash, _) => out.append(&[b'/', byte]),
            (Mode::Reads(quote), b'/') if quote.is_outside() => Ok(()),
            (Mode::Reads(_), _) => out.push(byte),
        }
    }

    /// Puts what is still pending at the line's end behind what was written, and says whether a
    /// comment goes on over it.
    #[tactic(auto, unfolding(crate::specs::Scan::scan_end))]
    fn close(self, out: &mut Bytes) -> Result<bool, Memory>
        ensures bytes { OnOk result (out.new ≡ out.old ++ (spec.scan_end self).bytes) }
        ensures unclosed { IfOk result (λ goes_on. goes_on ≡ (spec.scan_end self).unclosed) }
    {
        match self {
            Mode::Inside | Mode::Star => Ok(true),
            Mode::Slash => {
                out.push(b'/')?;
                Ok(false)
            }
            Mode::Reads(_) | Mode::Over => Ok(false),
        }
    }
}

/// The mode in which a line begins.
fn first_mode(was_open: bool) -> Mode
    ensures { result ≡ spec.mode_at was_open }
{
    if was_open {
        Mode::Inside
    } else {
        Mode::Reads(Quote::Outside)
    }
}
