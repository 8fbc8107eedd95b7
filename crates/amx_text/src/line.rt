ghost use Rattle.std.specs.Prelude.{◌≡◌, ◌<◌, ◌++◌, codes, map, pos};
ghost use Rattle.std.specs.Fmt.{signed_decimal};
ghost use Rattle.std.specs.List.{flat_map};
ghost use Rattle.pawn_outside.specs.Said.{Said};
ghost use Rattle.host_script.specs.Text.{character_text, stands_for_itself};
ghost use Rattle.amx_ops.specs.Table.{row_of};
ghost use Rattle.amx_text.specs.Lines.{hexadecimal_digit, address_text, record_line, cells_line};
ghost use Rattle.amx_text.specs.Lines.{name_by, name_of, instruction_line, data_line};

use amx_ops::{Op, Record, TABLE, op_at};
use host_script::say_cell;
use itoa::Buffer;
use pawn_outside::{Sink, SinkFault, say};

/// Writes the line of a table's record.
pub fn say_record<S: Sink>(out: &mut S, kind: &[u8], entry: &Record) -> Result<(), SinkFault>
    ensures { let line = record_line kind.now entry.now in
        Said S.taken S.faults S.has_room out.old out.new line result }
{
    say_kind(out, kind, entry.address)?;
    say_characters(out, entry.name.as_slice())?;
    say(out, &[b"\"\n"])
}

/// Writes the beginning of a record's line, up to the quote of its name.
fn say_kind<S: Sink>(out: &mut S, kind: &[u8], address: i32) -> Result<(), SinkFault>
    ensures { let text = kind.now ++ (codes " " ++ (signed_decimal address ++ codes " \"")) in
        Said S.taken S.faults S.has_room out.old out.new text result }
{
    let mut digits = Buffer::new();
    say(
        out,
        &[kind, b" ", digits.format(address).as_bytes(), b" \""],
    )
}

/// Writes the characters of a name.
fn say_characters<S: Sink>(out: &mut S, name: &[u8]) -> Result<(), SinkFault>
    ensures { let text = flat_map character_text (map pos name.now) in
        Said S.taken S.faults S.has_room out.old out.new text result }
{
    for byte in name {
        say_character(out, *byte)?;
    }
    Ok(())
}

/// Writes a byte, by its number where it doesn't stand for itself.
fn say_character<S: Sink>(out: &mut S, byte: u8) -> Result<(), SinkFault>
    ensures { let text = character_text (pos byte) in
        Said S.taken S.faults S.has_room out.old out.new text result }
{
    if stands_for_itself(byte) {
        say(out, &[&[byte]])
    } else {
        let mut digits = Buffer::new();
        say(out, &[b"\\", digits.format(byte).as_bytes(), b";"])
    }
}

/// Whether a byte is printable and neither the quote nor the backslash.
pub fn stands_for_itself(byte: u8) -> bool
    ensures { result ≡ stands_for_itself byte }
{
    32 <= byte && byte <= 126 && byte != 34 && byte != 92
}

/// Writes the line of an instruction, by its number and the cells behind it.
pub fn say_instruction<S: Sink>(
    out: &mut S,
    at: u32,
    number: u8,
    operands: &[i32],
) -> Result<(), SinkFault>
    ensures { let line = instruction_line at number operands.now in
        Said S.taken S.faults S.has_room out.old out.new line result }
{
    say(out, &[&address(at), b" ", name_of(number).as_bytes()])?;
    say_cells(out, operands)
}

/// The name of the instruction with a number.
fn name_of(number: u8) -> &'static str
    ensures { result.now ≡ name_by (row_of number) }
{
    match op_at(i32::from(number)) {
        Some(op) => name_in_table(op),
        None => "",
    }
}

/// The rows stand in the order of the operations.
fn name_in_table(op: Op) -> &'static str
    ensures { result.now ≡ name_of op }
{
    TABLE[op as usize].2
}

/// Writes a line of the data.
pub fn say_data<S: Sink>(out: &mut S, at: u32, cells: &[i32]) -> Result<(), SinkFault>
    ensures { let line = data_line at cells.now in
        Said S.taken S.faults S.has_room out.old out.new line result }
{
    say(out, &[&address(at)])?;
    say_cells(out, cells)
}

/// Writes the cells of a line and its end.
fn say_cells<S: Sink>(out: &mut S, cells: &[i32]) -> Result<(), SinkFault>
    ensures { Said S.taken S.faults S.has_room out.old out.new (cells_line cells.now) result }
{
    for cell in cells {
        say_cell(out, *cell)?;
    }
    say(out, &[b"\n"])
}

/// The digits of the address that begins a line.
fn address(at: u32) -> [u8; 8]
    ensures { result ≡ address_text at }
{
    let mut digits = [b'0'; 8];
    let mut rest = at;
    for place in 0..8 {
        digits[7 - place] = hexadecimal_digit(rest % 16);
        rest /= 16;
    }
    digits
}

fn hexadecimal_digit(number: u32) -> u8
    requires { number < 16 }
    ensures { result ≡ hexadecimal_digit number }
{
    if number < 10 {
        b'0' + number as u8
    } else {
        b'a' + (number - 10) as u8
    }
}
