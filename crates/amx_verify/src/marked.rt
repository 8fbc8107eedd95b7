ghost use Rattle.std.specs.Prelude.{◌≡◌, ◌+◌, ◌*◌, ◌/◌, ◌%◌, ◌<◌, ◌≤◌, ◌^◌, ◌∷◌, drop, false, length};
ghost use Rattle.std.specs.Prelude.{◌==◌, IfOk, IfSome, IsTrue, if◌then◌else◌, pos};
ghost use Rattle.std.specs.List.{slice_index_or};
ghost use Rattle.amx_ops.specs.Instructions as instructions;
ghost use Rattle.amx_ops.specs.Instructions.{fetched, front, placed};
ghost use Rattle.amx_ops.specs.Valid as valid;
ghost use Rattle.amx_verify.specs.Kinds as spec;
ghost use Rattle.amx_verify.specs.Kinds.{StartsAs, table_by};
ghost use Rattle.amx_ops.specs.Writable.{cells_limit};

use super::fault::VerifyFault;
use amx_ops::{Amx, Instr, Operand, decode, row_at};
use pawn_base::Memory;
use std::alloc::Global;
use std::marker::Model;

/// A file with the kind of each cell of its code: the number of the instruction that starts there,
/// 0 where none does. Contracts see the file.
#[derive(Debug, Drop)]
pub struct Marked {
    amx: Amx,
    kinds: Vec<u8>,
}

impl Model for Marked {
    ghost use Rattle.amx_ops.specs.declared.amx.Amx.{Amx};
    ghost use Rattle.amx_verify.specs.Kinds.{IsMarked};

    ghost Value = { Amx };

    ghost view = { λ marked. marked.amx };

    ghost invariant = { λ marked. IsMarked marked.amx marked.kinds.items };
}

impl Marked {
    /// Notes where the instructions start, as far as they are whole.
    pub fn new(alloc: Global, amx: Amx) -> Result<Marked, Memory>
        requires { length amx.code + length amx.store + amx.room ≤ cells_limit }
        ensures { IfOk result (λ marked. marked ≡ amx) }
    {
        let kinds = kinds_of(alloc, amx.code.as_slice())?;
        Ok(Marked { amx, kinds })
    }

    pub fn amx(&self) -> &Amx
        ensures value { result.now ≡ self.now }
        ensures memory { length self.now.code + length self.now.store + self.now.room
            ≤ cells_limit }
    {
        &self.amx
    }

    pub fn into_amx(self) -> Amx
        ensures { result ≡ self }
    {
        self.amx
    }

    /// The number of the instruction that starts at an address, in bytes; 0 where none does.
    #[inline(always)]
    pub fn kind_at(&self, at: u32) -> u8
        ensures is { result ≡ spec.kind self.now.code at }
        ensures none { result ≡ 0 → instructions.is_start self.now.code at ≡ false }
        ensures some { 0 < result → StartsAs self.now.code at result }
    {
        kind_in(self.kinds.as_slice(), at)
    }

    /// Whether an instruction starts at an address.
    #[inline(always)]
    pub fn is_start(&self, at: u32) -> bool
        ensures is { result ≡ instructions.is_start self.now.code at }
        ensures within { IsTrue result → (at % 4 ≡ 0) × (at / 4 < length self.now.code) }

        // It is the one that the cells from there on begin with.
        ensures here { IsTrue result → fetched self.now.code at ≡
            front (drop (at / 4) self.now.code) }
    {
        self.kind_at(at) != 0
    }

    /// The instruction that starts at an address.
    pub fn fetch(&self, at: u32) -> Option<Instr>
        ensures { result ≡ fetched self.now.code at }
    {
        if self.is_start(at) {
            decode(self.amx.code.as_slice(), at / 4)
        } else {
            None
        }
    }

    /// Whether an address leads to an instruction.
    pub fn leads(&self, at: i32) -> bool
        ensures { result ≡ valid.leads (instructions.is_start self.now.code) at }
    {
        at >= 0 && self.is_start(at.cast_unsigned())
    }

    /// Whether an address is a case table's.
    pub fn is_table(&self, at: i32) -> bool
        ensures { result ≡ valid.is_table (placed self.now.code) at }
    {
        at >= 0 && self.is_table_at(at.cast_unsigned())
    }

    fn is_table_at(&self, at: u32) -> bool
        ensures { result ≡ valid.is_table (placed self.now.code) (pos at) }
    {
        is_cases(self.fetch(at))
    }

    /// The cells from one on.
    pub fn from_cell(&self, place: usize) -> &[i32]
        ensures { result.now ≡ drop place self.now.code }
    {
        let code = self.amx.code.as_slice();
        if place < code.len() {
            code.split_at(place).1
        } else {
            &[]
        }
    }
}

/// Whether an instruction is a case table.
fn is_cases(instruction: Option<Instr>) -> bool
    ensures { result ≡ table_by instruction }
{
    match instruction {
        None => false,
        Some(it) => matches!(row_at(i32::from(it.op)), Some((_, Operand::Cases))),
    }
}

/// The kind at an address, which is a multiple of 4 within the code where it isn't 0.
#[inline(always)]
fn kind_in(kinds: &[u8], at: u32) -> u8
    requires { length kinds.now ≤ cells_limit }
    ensures { result ≡ (if at % 4 == 0 then slice_index_or kinds.now (at / 4) 0 else 0) }
{
    // The address turned by two bits: one between cells is past every list, so that one test does.
    let place = (at / 4 + at % 4 * 1073741824) as usize;
    if place < kinds.len() { kinds[place] } else { 0 }
}

/// The kind of each cell. What follows an instruction that isn't whole has 0.
fn kinds_of(alloc: Global, cells: &[i32]) -> Result<Vec<u8>, Memory>
    requires { length cells.now < 2 ^ 32 }
    ensures { IfOk result (λ kinds. kinds.items ≡ spec.kinds_of cells.now) }
{
    let mut kinds = Vec::with_capacity(alloc, cells.len())?;
    let mut passed = 0;
    for place in 0..cells.len() {
        let (kind, others) = first_kind(passed, cells.split_at(place).1);
        kinds.push(kind)?;
        passed = others;
    }
    Ok(kinds)
}

/// The kind of the first cell, and how many cells behind it belong to its instruction. So many
/// belong to the one before.
fn first_kind(passed: usize, cells: &[i32]) -> (u8, usize)
    requires some { 0 < length cells.now }
    requires small { length cells.now < 2 ^ 32 }
    ensures { spec.kinds passed cells.now ≡ result.0 ∷ spec.kinds result.1 (drop 1 cells.now) }
{
    if passed > 0 {
        return (0, passed - 1);
    }
    match decode(cells, 0) {
        Some(instruction) => (
            instruction.op,
            (instruction.cells as usize).saturating_sub(1),
        ),
        None => (0, cells.len() - 1),
    }
}
