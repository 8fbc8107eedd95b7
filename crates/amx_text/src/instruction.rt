ghost use Rattle.std.specs.Prelude.{◌≡◌, IfOk};
ghost use Rattle.amx_ops.specs.Table.{rows_of, table};
ghost use Rattle.amx_text.specs.Readers.{Gives, operation_at, names_of, has_operands, is_counted};
ghost use Rattle.amx_text.specs.Readers.{operation_named, word_end};

use super::reader::after_word;
use amx_ops::{Operand, Row, TABLE};
use pawn_base::{Memory, Names};
use std::alloc::Global;

/// The names of the instructions, in the order of their table.
pub fn operation_names(alloc: Global) -> Result<Names, Memory>
    ensures { IfOk result (λ names. names ≡ names_of) }
{
    names_in(alloc, &TABLE)
}

/// The names in the rows of the table.
fn names_in(alloc: Global, rows: &[Row]) -> Result<Names, Memory>
    requires { rows_of rows.now ≡ table }
    ensures { IfOk result (λ names. names ≡ names_of) }
{
    let mut names = Names::new(alloc);
    for row in rows {
        names.push(alloc, row.2.as_bytes())?;
    }
    Ok(names)
}

/// The number and the kind of operand of the instruction whose name stands behind one blank, and
/// what stands behind the name.
pub fn operation_at<'t>(names: &Names, text: &'t [u8]) -> Option<((u8, Operand), &'t [u8])>
    requires { names.now ≡ names_of }
    ensures { Gives (operation_at text.now) result }
{
    let text = after_word(text, b" ")?;
    let end = word_end(text)?;
    let (name, rest) = text.split_at(end);
    let operation = operation_named(names, name)?;
    Some((operation, rest))
}

/// The number and the kind of operand of the instruction with a name.
fn operation_named(names: &Names, name: &[u8]) -> Option<(u8, Operand)>
    requires { names.now ≡ names_of }
    ensures { result ≡ operation_named name.now }
{
    operation_in(&TABLE, names, name)
}

/// Those of the row with a name, among the rows of the table.
fn operation_in(rows: &[Row], names: &Names, name: &[u8]) -> Option<(u8, Operand)>
    requires rows { rows_of rows.now ≡ table }
    requires names { names.now ≡ names_of }
    ensures { result ≡ operation_named name.now }
{
    let place = names.place(name)?;
    let row = &rows[place];
    Some((row.0, row.3))
}

/// Where the first blank or line's end stands.
fn word_end(text: &[u8]) -> Option<usize>
    ensures { result ≡ word_end text.now }
{
    text.iter().position(|byte| *byte == b' ' || *byte == b'\n')
}

/// Whether an instruction has these cells behind its number.
pub fn has_operands(operand: Operand, cells: &[i32]) -> bool
    ensures { result ≡ has_operands operand cells.now }
{
    match operand {
        Operand::Nothing => cells.is_empty(),
        Operand::Cases => is_counted(cells),
        _ => cells.len() == 1,
    }
}

/// Whether a case table's count has its default address and so many pairs behind it.
fn is_counted(cells: &[i32]) -> bool
    ensures { result ≡ is_counted cells.now }
{
    match cells.split_first() {
        Some((count, table)) => *count >= 0 && table.len() as u64 == 1 + 2 * (*count as u64),
        None => false,
    }
}
