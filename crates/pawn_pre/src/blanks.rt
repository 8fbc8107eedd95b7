ghost use Rattle.std.specs.Prelude.{◌≡◌};
ghost use Rattle.pawn_pre.specs.Blanks as spec;

use pawn_token::{Class, is_in, split};

/// Without the blanks in front.
pub fn past_blanks(bytes: &[u8]) -> &[u8]
    ensures { result.now ≡ spec.past_blanks bytes.now }
{
    split(Class::Blank, bytes).1
}

/// Without the blanks at the end.
pub fn trimmed_end(bytes: &[u8]) -> &[u8]
    ensures { result.now ≡ spec.without_end bytes.now }
{
    let mut end = bytes.len();
    while end > 0 && is_in(Class::Blank, bytes[end - 1]) {
        end -= 1;
    }
    bytes.split_at(end).0
}

/// Without the blanks at both ends.
pub fn trimmed(bytes: &[u8]) -> &[u8]
    ensures { result.now ≡ spec.trimmed bytes.now }
{
    trimmed_end(past_blanks(bytes))
}

/// The word in front, of letters, digits, `_` and `@`, and what stands behind it.
pub fn split_word(bytes: &[u8]) -> (&[u8], &[u8])
    ensures word { result.0.now ≡ spec.front_word bytes.now }
    ensures behind { result.1.now ≡ spec.behind_word bytes.now }
{
    split(Class::NameByte, bytes)
}
