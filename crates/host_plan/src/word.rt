ghost use Rattle.std.specs.Prelude.{◌≡◌, ◌≤◌, ◌↔◌, IsTrue, length};
ghost use Rattle.std.specs.Fmt.{decimal};
ghost use Rattle.host_plan.specs.Plans.{IsName, IsWord};
ghost use Rattle.host_plan.specs.Words.{IsNumberOf, IsSmallNumberOf, Splits, are_graphic};

use itoa::Buffer;

/// The most bytes of a name of a public.
pub const LONGEST_NAME: usize = 31;

/// What stands before and behind the first of some bytes that is this one.
pub fn split_at(text: &[u8], byte: u8) -> Option<(&[u8], &[u8])>
    ensures { Splits byte text.now result }
{
    let at = text.iter().position(|it| *it == byte)?;
    let (front, rest) = text.split_at(at);
    let (_byte, behind) = rest.split_at(1);
    Some((front, behind))
}

/// Whether some bytes are one or more printable ones that aren't blanks.
pub fn is_word(bytes: &[u8]) -> bool
    ensures { IsTrue result ↔ IsWord bytes.now }
{
    !bytes.is_empty() && are_graphic(bytes)
}

/// Whether each byte is printable and no blank.
fn are_graphic(bytes: &[u8]) -> bool
    ensures { result ≡ are_graphic bytes.now }
{
    bytes.iter().all(|byte| 33 <= *byte && *byte <= 126)
}

/// Whether some bytes are a word that isn't too long for a public's name.
pub fn is_name(bytes: &[u8]) -> bool
    ensures { IsTrue result ↔ IsName bytes.now }
{
    is_word(bytes) && bytes.len() <= LONGEST_NAME
}

/// The number whose decimal form a word is.
pub fn number_of(word: &[u8]) -> Option<u64>
    ensures { IsNumberOf word.now result }
{
    let Ok(digits) = str::from_utf8(word) else {
        return None;
    };
    let Ok(number) = digits.parse::<u64>() else {
        return None;
    };
    if is_decimal(number, word) {
        Some(number)
    } else {
        None
    }
}

/// The same of a number that fits 32 bits.
pub fn small_number_of(word: &[u8]) -> Option<u32>
    ensures { IsSmallNumberOf word.now result }
{
    let number = number_of(word)?;
    if number <= 0xFFFF_FFFF {
        Some(number as u32)
    } else {
        None
    }
}

/// Whether some bytes are a number's decimal form.
fn is_decimal(number: u64, digits: &[u8]) -> bool
    ensures { IsTrue result ↔ (digits.now ≡ decimal number) }
{
    let mut buffer = Buffer::new();
    buffer.format(number).as_bytes() == digits
}
