ghost use Rattle.std.specs.Prelude.{◌≡◌, ◌+◌, ◌*◌, ◌/◌, ◌<◌, ◌≤◌, ◌^◌, drop, length, map, pos};
ghost use Rattle.std.specs.Prelude.{negsuc};
ghost use Rattle.pawn_cells.specs.Cells.{bits_of, wrapped_sum};
ghost use Rattle.amx_ops.specs.Instructions.{is_start};
ghost use Rattle.amx_ops.specs.Valid as valid;
ghost use Rattle.amx_verify.specs.Verdict.{Judges};
ghost use Rattle.amx_verify.specs.Fronts.{link_fault_from};

use super::fault::VerifyFault;
use super::marked::Marked;
use amx_ops::{Instr, Operand, Record, decode, row_at};

impl Marked {
    /// Whether each instruction leads to instructions.
    pub fn check_links(&self) -> Result<(), VerifyFault>
        ensures { Judges result (link_fault_from self.now.code 0 self.now.code) }
    {
        let count = self.amx().code.len();
        let mut place = 0;
        while place < count {
            match decode(self.from_cell(place), 0) {
                None => return Ok(()),
                Some(instruction) => {
                    self.check_link(instruction, 4 * place as u32)?;
                    place += instruction.cells as usize;
                }
            }
        }
        Ok(())
    }

    fn check_link(&self, instruction: Instr, at: u32) -> Result<(), VerifyFault>
        requires small { at + 4 * instruction.cells < 2 ^ 31 }
        ensures { Judges result (valid.linked (is_start self.now.code) 0 self.now.code
            (record { at = at; instr = instruction })) }
    {
        let value = instruction.operand;
        match row_at(i32::from(instruction.op)) {
            Some((_, Operand::Target)) if !self.leads(value) => Err(VerifyFault::Target(at)),
            Some((_, Operand::Relative))
                if !self.is_start_from(at + 4 * instruction.cells, value) => {
                Err(VerifyFault::Target(at))
            }
            Some((_, Operand::CaseTable)) if !self.is_table(value) => {
                Err(VerifyFault::CaseTable(at))
            }
            Some((_, Operand::Cases)) if !self.all_lead(at, value) => {
                Err(VerifyFault::CaseTable(at))
            }
            _ => Ok(()),
        }
    }

    /// Whether an instruction starts so far from an address.
    fn is_start_from(&self, next: u32, way: i32) -> bool
        ensures { result ≡ is_start self.now.code (wrapped_sum next (bits_of way)) }
    {
        self.is_start(next.wrapping_add(way.cast_unsigned()))
    }

    /// Whether the addresses of the case table at an address lead to instructions.
    fn all_lead(&self, at: u32, count: i32) -> bool
        ensures { result ≡ valid.all_lead (is_start self.now.code) (bits_of count + 1)
            (drop (at / 4 + 2) self.now.code) }
    {
        let total = u64::from(count.cast_unsigned()) + 1;
        let mut rest = self.from_cell((at / 4) as usize + 2);
        for done in 0..total {
            let Some((address, after)) = rest.split_first() else {
                return false;
            };
            if !self.leads(*address) {
                return false;
            }
            rest = behind(after);
        }
        true
    }

    /// Whether main and the publics begin at instructions.
    pub fn check_entries(&self) -> Result<(), VerifyFault>
        requires { length self.now.publics < 2 ^ 31 }
        ensures { Judges result (valid.or_else (valid.main_fault self.now.code self.now.entry)
            (valid.publics_fault self.now.code 0 (map (λ it. it.address) self.now.publics))) }
    {
        let amx = self.amx();
        if amx.entry != -1 && !self.leads(amx.entry) {
            return Err(VerifyFault::Entry(-1));
        }
        self.check_publics(amx.publics.as_slice())
    }

    fn check_publics(&self, publics: &[Record]) -> Result<(), VerifyFault>
        requires { length publics.now < 2 ^ 31 }
        ensures { Judges result (valid.publics_fault self.now.code 0
            (map (λ it. it.address) publics.now)) }
    {
        for (number, public) in publics.iter().enumerate() {
            self.check_public(number, public)?;
        }
        Ok(())
    }

    fn check_public(&self, number: usize, public: &Record) -> Result<(), VerifyFault>
        requires { number < 2 ^ 31 }
        ensures { Judges result (valid.entry_fault self.now.code (pos number) public.now.address) }
    {
        if self.leads(public.address) {
            Ok(())
        } else {
            Err(VerifyFault::Entry(number as i32))
        }
    }
}

/// The cells behind a value.
fn behind(cells: &[i32]) -> &[i32]
    ensures { result.now ≡ drop 1 cells.now }
{
    match cells.split_first() {
        None => cells,
        Some((_, rest)) => rest,
    }
}
