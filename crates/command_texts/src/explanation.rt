ghost use Rattle.std.specs.Prelude.{◌≡◌, find, is_some};
ghost use Rattle.pawn_outside.specs.Said.{Said};
ghost use Rattle.command_texts.specs.Rows.{row_by, rows_by, rows_in};
ghost use Rattle.command_texts.specs.Explained.{explained, head, has_number, is_explained};
ghost use Rattle.command_texts.specs.Explained.{row_text, rows_text, row_whole};

use super::row::Row;
use super::tables::tables;
use itoa::Buffer;
use pawn_outside::{Sink, SinkFault, say};

/// Writes the rows with a number, or the first line of each row where none is asked for.
pub fn explain<S: Sink>(asked: Option<u8>, out: &mut S) -> Result<(), SinkFault>
    ensures { Said S.taken S.faults S.has_room out.old out.new (explained asked) result }
{
    say_tables(&tables(), asked, out)
}

/// Writes what is told of the rows of some tables.
fn say_tables<S: Sink>(tables: &[&[Row]], asked: Option<u8>, out: &mut S) -> Result<(), SinkFault>
    ensures { let text = rows_text asked (rows_in tables.now) in
        Said S.taken S.faults S.has_room out.old out.new text result }
{
    for table in tables {
        say_table(table, asked, out)?;
    }
    Ok(())
}

/// Writes what is told of some rows.
fn say_table<S: Sink>(rows: &[Row], asked: Option<u8>, out: &mut S) -> Result<(), SinkFault>
    ensures { let text = rows_text asked (rows_by rows.now) in
        Said S.taken S.faults S.has_room out.old out.new text result }
{
    for row in rows {
        say_row(row, asked, out)?;
    }
    Ok(())
}

/// Writes what is told of a row.
fn say_row<S: Sink>(row: &Row, asked: Option<u8>, out: &mut S) -> Result<(), SinkFault>
    ensures { let text = row_text asked (row_by row.now) in
        Said S.taken S.faults S.has_room out.old out.new text result }
{
    match asked {
        None => say_head(row, out),
        Some(number) if row.1 == number => say_whole(row, out),
        Some(_) => Ok(()),
    }
}

/// Writes a row's number, and what it says.
fn say_head<S: Sink>(row: &Row, out: &mut S) -> Result<(), SinkFault>
    ensures { let text = head (row_by row.now) in
        Said S.taken S.faults S.has_room out.old out.new text result }
{
    let mut digits = Buffer::new();
    let number = digits.format(row.1).as_bytes();
    say(
        out,
        &[row.0.words(), b" ", number, b": ", row.2.as_bytes(), b"\n"],
    )
}

/// Writes a row whole.
fn say_whole<S: Sink>(row: &Row, out: &mut S) -> Result<(), SinkFault>
    ensures { let text = row_whole (row_by row.now) in
        Said S.taken S.faults S.has_room out.old out.new text result }
{
    say_head(row, out)?;
    say(
        out,
        &[
            b"  for instance:\n    ",
            row.3.as_bytes(),
            b"\n  cure: ",
            row.4.as_bytes(),
            b"\n",
        ],
    )
}

/// Whether some row has a number.
pub fn is_explained(number: u8) -> bool
    ensures { result ≡ is_explained number }
{
    have_row(&tables(), number)
}

/// Whether a row of these tables has a number.
fn have_row(tables: &[&[Row]], number: u8) -> bool
    ensures { result ≡ is_some (find (has_number number) (rows_in tables.now)) }
{
    for table in tables {
        if has_row(table, number) {
            return true;
        }
    }
    false
}

/// Whether one of these rows has a number.
fn has_row(rows: &[Row], number: u8) -> bool
    ensures { result ≡ is_some (find (has_number number) (rows_by rows.now)) }
{
    for row in rows {
        if row.1 == number {
            return true;
        }
    }
    false
}
