ghost use Rattle.std.specs.Prelude.{◌≡◌, map, pos, IfSome};
ghost use Rattle.std.specs.Option.{is_some};
ghost use Rattle.std.specs.List.{flat_map};
ghost use Rattle.pawn_outside.specs.Said.{Said};
ghost use Rattle.host_script.specs.declared.event.Seen.TheVariants as seen;
ghost use Rattle.host_script.specs.Script.{bytes_of, characters};
ghost use Rattle.host_script.specs.Text.{argument_text, character_text, values_text};
ghost use Rattle.host_script.specs.Characters.{front, has_zero, is_packed, itself, unpacked};
ghost use Rattle.host_script.specs.Characters.{characters_text};

use super::lines::say_plain;
use itoa::Buffer;
use pawn_outside::{Sink, SinkFault, say};

/// Writes an argument that was seen as a cell. Like the lines' other parts it takes no memory.
pub fn say_cell<S: Sink>(out: &mut S, value: i32) -> Result<(), SinkFault>
    ensures { let text = argument_text (seen.Cell value) in
        Said S.taken S.faults S.has_room out.old out.new text result }
{
    let mut digits = Buffer::new();
    say(out, &[b" ", digits.format(value).as_bytes()])
}

/// Writes an argument that was seen as a reference to a cell.
pub fn say_reference<S: Sink>(out: &mut S, value: i32) -> Result<(), SinkFault>
    ensures { let text = argument_text (seen.Ref value) in
        Said S.taken S.faults S.has_room out.old out.new text result }
{
    let mut digits = Buffer::new();
    say(out, &[b" &", digits.format(value).as_bytes()])
}

/// Writes an argument that was seen as so many cells.
pub fn say_cells<S: Sink>(out: &mut S, values: &[i32]) -> Result<(), SinkFault>
    ensures { let text = argument_text (seen.Cells values.now) in
        Said S.taken S.faults S.has_room out.old out.new text result }
{
    say(out, &[b" ["])?;
    say_values(out, values)?;
    say(out, &[b"]"])
}

/// Writes values, parted by blanks.
fn say_values<S: Sink>(out: &mut S, values: &[i32]) -> Result<(), SinkFault>
    ensures { Said S.taken S.faults S.has_room out.old out.new (values_text values.now) result }
{
    let Some((first, others)) = values.split_first() else {
        return say(out, &[]);
    };
    let mut digits = Buffer::new();
    say(out, &[digits.format(*first).as_bytes()])?;
    say_plain(out, others)
}

/// Whether cells have a text: a zero ends it.
pub fn has_text(cells: &[i32]) -> bool
    ensures { result ≡ is_some (characters cells.now) }
{
    if is_packed(cells) {
        has_packed_zero(cells)
    } else {
        has_zero(cells)
    }
}

/// Writes an argument that was seen as the text that begins with these cells, packed or unpacked.
pub fn say_text<S: Sink>(out: &mut S, cells: &[i32]) -> Result<(), SinkFault>
    ensures { IfSome (characters cells.now) (λ text.
        Said S.taken S.faults S.has_room out.old out.new (argument_text (seen.Text text)) result) }
{
    say(out, &[b" \""])?;
    say_before_zero(out, cells)?;
    say(out, &[b"\""])
}

/// Writes the characters of a text up to its zero.
fn say_before_zero<S: Sink>(out: &mut S, cells: &[i32]) -> Result<(), SinkFault>
    ensures { let text = characters_text (front (unpacked cells.now)) in
        Said S.taken S.faults S.has_room out.old out.new text result }
{
    if is_packed(cells) {
        say_packed(out, cells)
    } else {
        say_unpacked(out, cells)
    }
}

/// Whether a text has four characters in a cell.
fn is_packed(cells: &[i32]) -> bool
    ensures { result ≡ is_packed cells.now }
{
    match cells.first() {
        Some(cell) => cell.cast_unsigned() > 0x00FF_FFFF,
        None => false,
    }
}

fn has_zero(cells: &[i32]) -> bool
    ensures { result ≡ has_zero cells.now }
{
    for cell in cells {
        if *cell == 0 {
            return true;
        }
    }
    false
}

fn has_zero_byte(bytes: &[u8]) -> bool
    ensures { result ≡ has_zero (map pos bytes.now) }
{
    for byte in bytes {
        if *byte == 0 {
            return true;
        }
    }
    false
}

fn has_packed_zero(cells: &[i32]) -> bool
    ensures { result ≡ has_zero (flat_map bytes_of cells.now) }
{
    for cell in cells {
        if has_zero_byte(&cell.to_be_bytes()) {
            return true;
        }
    }
    false
}

/// Writes the characters of packed cells up to a zero.
fn say_packed<S: Sink>(out: &mut S, cells: &[i32]) -> Result<(), SinkFault>
    ensures { let text = characters_text (front (flat_map bytes_of cells.now)) in
        Said S.taken S.faults S.has_room out.old out.new text result }
{
    for cell in cells {
        let bytes = cell.to_be_bytes();
        say_bytes(out, &bytes)?;
        if has_zero_byte(&bytes) {
            return Ok(());
        }
    }
    Ok(())
}

/// Writes the characters of a packed cell up to a zero.
fn say_bytes<S: Sink>(out: &mut S, bytes: &[u8]) -> Result<(), SinkFault>
    ensures { let text = characters_text (front (map pos bytes.now)) in
        Said S.taken S.faults S.has_room out.old out.new text result }
{
    for byte in bytes {
        if *byte == 0 {
            return Ok(());
        }
        say_character(out, i32::from(*byte))?;
    }
    Ok(())
}

/// Writes unpacked characters up to a zero.
fn say_unpacked<S: Sink>(out: &mut S, characters: &[i32]) -> Result<(), SinkFault>
    ensures { let text = characters_text (front characters.now) in
        Said S.taken S.faults S.has_room out.old out.new text result }
{
    for character in characters {
        if *character == 0 {
            return Ok(());
        }
        say_character(out, *character)?;
    }
    Ok(())
}

/// Writes a character, by its number where it isn't printable.
fn say_character<S: Sink>(out: &mut S, character: i32) -> Result<(), SinkFault>
    ensures { let text = character_text character in
        Said S.taken S.faults S.has_room out.old out.new text result }
{
    match printable(character) {
        Some(byte) => say(out, &[&[byte]]),
        None => {
            let mut digits = Buffer::new();
            say(out, &[b"\\", digits.format(character).as_bytes(), b";"])
        }
    }
}

/// The byte of a character that stands for itself.
fn printable(character: i32) -> Option<u8>
    ensures { result ≡ itself character }
{
    if 32 <= character && character <= 126 && character != 34 && character != 92 {
        Some(character as u8)
    } else {
        None
    }
}
