ghost use Rattle.std.specs.Prelude.{◌≡◌, ◌<◌, ◌≤◌, ◌+◌, ◌*◌, ◌^◌, ◌++◌, length, IfSome, OnOk, Some};
ghost use Rattle.pawn_base.specs.Cells.{AreCells};

use super::op::Op;
use super::table::{Operand, TABLE, row_at};
use pawn_base::{Cells, Memory};

/// A whole instruction of code.
#[derive(Clone, Copy, Debug, PartialEq, Eq)]
pub struct Instr {
    /// Its number in the table.
    pub op: u8,
    /// 0 where nothing stands behind the number; the count of a case table.
    pub operand: i32,
    /// How many cells it takes, with the number's own.
    pub cells: u32,
}

ghost use Rattle.amx_ops.specs.Table.{number_of};
ghost use Rattle.amx_ops.specs.Instructions.{front, decoded, encoded, read_by, with_operand};
ghost use Rattle.amx_ops.specs.Instructions.{with_cases, cells_by, IsEncodable};

impl Op {
    /// Its number in the table.
    pub fn number(self) -> u8
        ensures { result ≡ number_of self }
    {
        TABLE[self as usize].0
    }
}

/// The whole instruction that stands at a cell of code, if one does.
pub fn decode(code: &[i32], at: u32) -> Option<Instr>
    requires { length code.now < 2 ^ 32 }
    ensures value { result ≡ decoded code.now at }
    ensures whole { IfSome result (λ it. (1 ≤ it.cells) × (at + it.cells ≤ length code.now)) }
{
    let place = at as usize;
    if place < code.len() {
        first(code.split_at(place).1)
    } else {
        None
    }
}

/// The whole instruction at the front of some cells.
fn first(cells: &[i32]) -> Option<Instr>
    requires { length cells.now < 2 ^ 32 }
    ensures value { result ≡ front cells.now }
    ensures whole { IfSome result (λ it. (1 ≤ it.cells) × (it.cells ≤ length cells.now)) }
{
    let (number, operands) = cells.split_first()?;
    let (op, kind) = row_at(*number)?;
    read(op, kind, operands)
}

/// An instruction of a kind, with its number and the cells behind it.
fn read(op: u8, kind: Operand, cells: &[i32]) -> Option<Instr>
    requires { length cells.now + 1 < 2 ^ 32 }
    ensures value { result ≡ read_by op kind cells.now }
    ensures whole { IfSome result (λ it. (1 ≤ it.cells) × (it.cells ≤ length cells.now + 1)) }
{
    match kind {
        Operand::Nothing => Some(Instr {
            op,
            operand: 0,
            cells: 1,
        }),
        Operand::Cases => read_cases(op, cells),
        _ => Some(Instr {
            op,
            operand: *cells.first()?,
            cells: 2,
        }),
    }
}

/// A case table: its count, its default, and pairs of value and address.
fn read_cases(op: u8, cells: &[i32]) -> Option<Instr>
    requires { length cells.now + 1 < 2 ^ 32 }
    ensures value { result ≡ with_cases op cells.now }
    ensures whole { IfSome result (λ it. (1 ≤ it.cells) × (it.cells ≤ length cells.now + 1)) }
{
    if cells.len() < 2 || cells[0] < 0 {
        return None;
    }
    let count = cells[0].cast_unsigned();
    if 2 * u64::from(count) + 2 <= cells.len() as u64 {
        Some(Instr {
            op,
            operand: cells[0],
            cells: 3 + 2 * count,
        })
    } else {
        None
    }
}

/// Puts an instruction with its operand behind some code. Its case tables are put cell by cell.
pub fn encode(op: u8, operand: i32, out: &mut Cells) -> Result<(), Memory>
    requires { IsEncodable op operand }
    ensures { OnOk result (out.new ≡ out.old ++ encoded op operand) }
{
    match row_at(i32::from(op)) {
        Some((op, kind)) => put(op, kind, operand, out),
        None => Ok(()),
    }
}

/// Puts an instruction of a kind.
fn put(op: u8, kind: Operand, operand: i32, out: &mut Cells) -> Result<(), Memory>
    ensures { OnOk result (out.new ≡ out.old ++ cells_by op operand kind) }
{
    out.push(i32::from(op))?;
    match kind {
        Operand::Nothing => Ok(()),
        _ => out.push(operand),
    }
}
