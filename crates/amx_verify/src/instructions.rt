ghost use Rattle.std.specs.Prelude.{◌≡◌, ◌+◌, ◌*◌, ◌<◌, ◌≤◌, length, IfOk};
ghost use Rattle.amx_ops.specs.Valid as valid;
ghost use Rattle.amx_verify.specs.Verdict.{Judges, Tells};
ghost use Rattle.amx_verify.specs.Fronts.{whole_fault, FrontIs};
ghost use Rattle.amx_ops.specs.Writable.{cells_limit};

use super::fault::VerifyFault;
use amx_ops::{Instr, Operand, decode, row_at};

/// Whether code is a row of whole instructions with proper operands, in a file with so many
/// natives.
pub fn check_whole(code: &[i32], natives: usize) -> Result<(), VerifyFault>
    requires { length code.now ≤ cells_limit }
    ensures { Judges result (whole_fault natives 0 code.now) }
{
    let mut place = 0;
    while place < code.len() {
        place += check_front(code.split_at(place).1, natives, 4 * place as u32)?;
    }
    Ok(())
}

/// The size in cells of the instruction at the front.
fn check_front(cells: &[i32], natives: usize, at: u32) -> Result<usize, VerifyFault>
    requires some { 0 < length cells.now }
    requires small { length cells.now ≤ cells_limit }
    ensures front { FrontIs natives at cells.now result }
    ensures size { IfOk result (λ size. (1 ≤ size) × (size ≤ length cells.now)) }
{
    match decode(cells, 0) {
        None => Err(fault_of_broken(cells, at)),
        Some(instruction) => {
            check_operand(instruction, natives, at)?;
            Ok(instruction.cells as usize)
        }
    }
}

/// Why no whole instruction stands at the front.
fn fault_of_broken(cells: &[i32], at: u32) -> VerifyFault
    requires { 0 < length cells.now }
    ensures { Tells result (valid.broken cells.now at) }
{
    match row_at(cells[0]) {
        None => VerifyFault::Opcode(at),
        Some((_, Operand::Cases)) if cells.len() >= 3 && cells[1] < 0 => VerifyFault::CaseTable(at),
        Some(_) => VerifyFault::Cut(at),
    }
}

fn check_operand(instruction: Instr, natives: usize, at: u32) -> Result<(), VerifyFault>
    ensures { Judges result (valid.proper natives (record { at = at; instr = instruction })) }
{
    match row_at(i32::from(instruction.op)) {
        None => Ok(()),
        Some((_, kind)) => check_kind(kind, instruction.operand, natives, at),
    }
}

fn check_kind(kind: Operand, value: i32, natives: usize, at: u32) -> Result<(), VerifyFault>
    ensures { Judges result (valid.operand_fault natives kind value at) }
{
    match kind {
        Operand::ByteCount if value != 1 && value != 2 && value != 4 => {
            Err(VerifyFault::ByteCount(at))
        }
        Operand::Register if value < 0 || value >= 7 => Err(VerifyFault::Register(at)),
        Operand::SetRegister if value != 2 && value != 4 && value != 5 && value != 6 => {
            Err(VerifyFault::Register(at))
        }
        Operand::Multiple if value.cast_unsigned() % 4 != 0 => Err(VerifyFault::ByteCount(at)),
        Operand::Length if value < 0 => Err(VerifyFault::ByteCount(at)),
        Operand::CellsLength if value < 0 || value.cast_unsigned() % 4 != 0 => {
            Err(VerifyFault::ByteCount(at))
        }
        Operand::NativeNumber if value < 0 || value.cast_unsigned() as usize >= natives => {
            Err(VerifyFault::Native(at))
        }
        _ => Ok(()),
    }
}
