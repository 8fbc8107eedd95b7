ghost use Rattle.std.specs.Prelude.{◌≡◌, codes};
ghost use Rattle.amx_text.specs.Readers.{after_word, number_at, number_on, grown, cell_at};
ghost use Rattle.amx_text.specs.Readers.{below_zero, address_at, address_on, hexadecimal_value};
ghost use Rattle.amx_text.specs.Readers.{character_at, named_by, operand_at, Gives, Leaves};
ghost use Rattle.amx_text.specs.Readers.{ReadsName, ReadsCells};

use super::line::stands_for_itself;
use pawn_base::{Bytes, Cells, Memory};
use std::alloc::Global;

/// What stands behind a word, where a text begins with it.
pub fn after_word<'t>(text: &'t [u8], word: &[u8]) -> Option<&'t [u8]>
    ensures { Leaves (after_word word.now text.now) result }
{
    text.strip_prefix(word)
}

/// The number with which a text begins, as it is printed, and what stands behind it.
pub fn number_at(text: &[u8]) -> Option<(u32, &[u8])>
    ensures { Gives (number_at text.now) result }
{
    let (byte, rest) = text.split_first()?;
    match *byte {
        b'0' => Some((0, rest)),
        b'1'..=b'9' => number_on(u32::from(*byte - b'0'), rest),
        _ => None,
    }
}

/// A number that goes on with the digits of a text, where it fits 32 bits.
fn number_on(start: u32, text: &[u8]) -> Option<(u32, &[u8])>
    ensures { Gives (number_on start text.now) result }
{
    let mut number = start;
    let mut rest = text;
    while let Some((byte, more)) = rest.split_first() {
        if !byte.is_ascii_digit() {
            break;
        }
        number = grown(number, 10, *byte - b'0')?;
        rest = more;
    }
    Some((number, rest))
}

/// A number with a digit behind it, where it fits 32 bits.
fn grown(number: u32, radix: u8, digit: u8) -> Option<u32>
    ensures { result ≡ grown number radix digit }
{
    let more = u64::from(number) * u64::from(radix) + u64::from(digit);
    if more <= 0xFFFF_FFFF {
        Some(more as u32)
    } else {
        None
    }
}

/// The cell with which a text begins, as it is printed, and what stands behind it.
pub fn cell_at(text: &[u8]) -> Option<(i32, &[u8])>
    ensures { Gives (cell_at text.now) result }
{
    match after_word(text, b"-") {
        Some(digits) => {
            let (number, rest) = number_at(digits)?;
            Some((below_zero(number)?, rest))
        }
        None => {
            let (number, rest) = number_at(text)?;
            if number <= 0x7FFF_FFFF {
                Some((number as i32, rest))
            } else {
                None
            }
        }
    }
}

/// The cell that is so far below 0, where there is one.
fn below_zero(number: u32) -> Option<i32>
    ensures { result ≡ below_zero number }
{
    if 0 < number && number <= 0x8000_0000 {
        Some((-i64::from(number)) as i32)
    } else {
        None
    }
}

/// The address with which a line begins, and what stands behind its eight digits.
pub fn address_at(text: &[u8]) -> Option<(u32, &[u8])>
    ensures { Gives (address_at text.now) result }
{
    let mut address = 0;
    let mut rest = text;
    for _place in 0..8u8 {
        let (byte, more) = rest.split_first()?;
        address = grown(address, 16, hexadecimal_value(*byte)?)?;
        rest = more;
    }
    Some((address, rest))
}

/// The value of a digit of an address.
fn hexadecimal_value(byte: u8) -> Option<u8>
    ensures { result ≡ hexadecimal_value byte }
{
    match byte {
        b'0'..=b'9' => Some(byte - b'0'),
        b'a'..=b'f' => Some(byte - b'a' + 10),
        _ => None,
    }
}

/// The character of a name with which a text begins, by itself or by its number, and what stands
/// behind it. No name has a zero.
fn character_at(text: &[u8]) -> Option<(u8, &[u8])>
    ensures { Gives (character_at text.now) result }
{
    let (byte, rest) = text.split_first()?;
    if stands_for_itself(*byte) {
        return Some((*byte, rest));
    }
    if *byte != b'\\' {
        return None;
    }
    let (number, rest) = number_at(rest)?;
    let rest = after_word(rest, b";")?;
    Some((named_by(number)?, rest))
}

/// The byte that is printed as this number.
fn named_by(number: u32) -> Option<u8>
    ensures { result ≡ named_by number }
{
    if number == 0 || 255 < number || stands_for_itself(number as u8) {
        None
    } else {
        Some(number as u8)
    }
}

/// The name before a quote, and what stands behind that.
pub fn name_at(alloc: Global, text: &[u8]) -> Result<Option<(Bytes, &[u8])>, Memory>
    ensures { ReadsName text.now result }
{
    let mut name = Bytes::new(alloc);
    let mut rest = text;
    while let Some((byte, more)) = character_at(rest) {
        name.push(byte)?;
        rest = more;
    }
    match after_word(rest, b"\"") {
        Some(rest) => Ok(Some((name, rest))),
        None => Ok(None),
    }
}

/// Puts the cells up to a line's end behind others, and tells what stands behind the line.
pub fn read_cells<'t>(cells: &mut Cells, text: &'t [u8]) -> Result<Option<&'t [u8]>, Memory>
    ensures { ReadsCells text.now cells.old cells.new result }
{
    let mut rest = text;
    while let Some((cell, more)) = operand_at(rest) {
        cells.push(cell)?;
        rest = more;
    }
    Ok(after_word(rest, b"\n"))
}

/// The cell behind one blank, and what stands behind it.
fn operand_at(text: &[u8]) -> Option<(i32, &[u8])>
    ensures { Gives (operand_at text.now) result }
{
    let rest = after_word(text, b" ")?;
    cell_at(rest)
}
