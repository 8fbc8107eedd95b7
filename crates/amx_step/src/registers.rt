ghost use Rattle.std.specs.Prelude.{◌≡◌, ◌+◌, ◌*◌, ◌/◌, ◌%◌, ◌<◌, ◌≤◌};
ghost use Rattle.std.specs.Prelude.{IsTrue, drop, false, length, map, pos};
ghost use Rattle.std.specs.List.{slice_index_or};
ghost use Rattle.pawn_cells.specs.Cells.{add, mul, shl};
ghost use Rattle.amx_ops.specs.Access.{in_frame};
ghost use Rattle.amx_ops.specs.Effects.{at_next, register};
ghost use Rattle.amx_ops.specs.Instructions as instructions;
ghost use Rattle.amx_ops.specs.Instructions.{fetched, front};
ghost use Rattle.amx_ops.specs.Valid.{IsValid};
ghost use Rattle.amx_verify.specs.Kinds.{StartsAs};

use super::turn::Turn;
use amx_block::Block;
use amx_ops::Amx;
use amx_verify::Verified;
use pawn_cells::Cell;
use std::marker::Model;

/// The registers and the memory of a file's machine. Contracts see the file and the state.
#[derive(Drop)]
pub struct Core {
    pub(crate) pri: i32,
    pub(crate) alt: i32,
    pub(crate) frm: u32,
    pub(crate) cip: u32,
    pub(crate) stk: u32,
    pub(crate) hea: u32,
    pub(crate) stp: u32,
    pub(crate) block: Block,
    pub(crate) verified: Verified,
}

impl Model for Core {
    ghost use Rattle.amx_step.specs.Machine.{Machine, IsSound};

    ghost Value = { Machine };

    ghost view = { λ m. record {
      amx = m.verified;
      state = record {
        pri = m.pri;
        alt = m.alt;
        frm = m.frm;
        cip = m.cip;
        stk = m.stk;
        hea = m.hea;
        cells = m.block.memory;
      };
    } };

    ghost invariant = { λ m. IsSound m.verified m.stp m.stk m.hea m.block };
}

impl Core {
    ghost use Rattle.amx_step.specs.Turns.{IsTurn};

    /// The file.
    pub fn verified(&self) -> &Verified
        ensures { result.now ≡ self.now.amx }
    {
        &self.verified
    }

    /// The same, as it was read: it is valid.
    pub fn amx(&self) -> &Amx
        ensures value { result.now ≡ self.now.amx }
        ensures valid { IsValid self.now.amx.code (length self.now.amx.natives)
            self.now.amx.entry (map (λ it. it.address) self.now.amx.publics) }
    {
        self.verified.amx()
    }

    /// The address of the next instruction.
    #[inline(always)]
    pub fn cip(&self) -> u32
        ensures { result ≡ self.now.state.cip }
    {
        self.cip
    }

    #[inline(always)]
    pub fn pri(&self) -> i32
        ensures { result ≡ self.now.state.pri }
    {
        self.pri
    }

    #[inline(always)]
    pub fn alt(&self) -> i32
        ensures { result ≡ self.now.state.alt }
    {
        self.alt
    }

    /// The address behind so many cells at CIP.
    #[inline(always)]
    pub fn behind(&self, cells: u32) -> u32
        requires within { self.now.state.cip < 4 * length self.now.amx.code }
        requires few { cells ≤ 2 }
        ensures { result ≡ self.now.state.cip + 4 * cells }
    {
        // For the prover alone: the invariant is opened, by which the sum fits.
        let _ = self.block.top();
        self.cip + 4 * cells
    }

    /// The cell behind the number at CIP.
    #[inline(always)]
    pub fn operand(&self) -> i32
        requires { (self.now.state.cip % 4 ≡ 0)
            × (self.now.state.cip + 4 < 4 * length self.now.amx.code) }
        ensures { result ≡ slice_index_or self.now.amx.code (self.now.state.cip / 4 + 1) (pos 0) }
    {
        self.block.code(self.cip + 4)
    }

    /// FRM and an offset.
    #[inline(always)]
    pub fn in_frame(&self, offset: i32) -> u32
        ensures { result ≡ in_frame self.now.state offset }
    {
        self.frm.wrapping_add(offset.cast_unsigned())
    }

    /// Whether an instruction starts at an address.
    #[inline(always)]
    pub fn is_start(&self, at: u32) -> bool
        ensures is { result ≡ instructions.is_start self.now.amx.code at }
        ensures within { IsTrue result → (at % 4 ≡ 0) × (at < 4 * length self.now.amx.code) }
        ensures here { IsTrue result →
            fetched self.now.amx.code at ≡ front (drop (at / 4) self.now.amx.code) }
    {
        self.verified.starts_at(at)
    }

    /// The number of the instruction that starts at CIP, 0 where none does.
    #[inline(always)]
    pub fn kind(&self) -> u8
        ensures none { result ≡ 0 →
            instructions.is_start self.now.amx.code self.now.state.cip ≡ false }
        ensures some { 0 < result → StartsAs self.now.amx.code self.now.state.cip result }
    {
        self.verified.kind_at(self.cip)
    }

    /// PRI = a value.
    #[inline(always)]
    pub fn set_pri(&mut self, value: i32, next: u32) -> Turn
        ensures { IsTurn (at_next next (record self.old.state { pri = value }))
            self.old result self.new }
    {
        self.pri = value;
        self.cip = next;
        Turn::Goes
    }

    /// ALT = a value.
    #[inline(always)]
    pub fn set_alt(&mut self, value: i32, next: u32) -> Turn
        ensures { IsTurn (at_next next (record self.old.state { alt = value }))
            self.old result self.new }
    {
        self.alt = value;
        self.cip = next;
        Turn::Goes
    }

    /// PRI and ALT = two values.
    #[inline(always)]
    pub fn set_both(&mut self, pri: i32, alt: i32, next: u32) -> Turn
        ensures { IsTurn (at_next next (record self.old.state { pri = pri; alt = alt }))
            self.old result self.new }
    {
        self.pri = pri;
        self.alt = alt;
        self.cip = next;
        Turn::Goes
    }

    /// ALT + 4 PRI.
    #[inline(always)]
    pub fn indexed(&self) -> i32
        ensures { result ≡ add self.now.state.alt (mul (pos 4) self.now.state.pri) }
    {
        Cell(self.alt).add(Cell(4).mul(Cell(self.pri))).0
    }

    /// ALT + (PRI << a count).
    #[inline(always)]
    pub fn shifted(&self, count: i32) -> i32
        ensures { result ≡ add self.now.state.alt (shl self.now.state.pri count) }
    {
        Cell(self.alt).add(Cell(self.pri).shl(Cell(count))).0
    }

    /// A register by its number, where the next address is this one.
    pub fn register(&self, number: u32, next: u32) -> i32
        ensures { result ≡ register self.now.amx next number self.now.state }
    {
        let length = 4 * self.verified.amx().code.len() as u32;
        let registers = [0, length, self.hea, self.stp, self.stk, self.frm, next];
        match registers.get(number as usize) {
            Some(value) => value.cast_signed(),
            None => 0,
        }
    }
}
