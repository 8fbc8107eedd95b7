ghost use Rattle.std.specs.Prelude.{◌≡◌, ◌+◌, ◌/◌, ◌%◌, ◌<◌, ◌≤◌, ◌^◌, drop, false, length, map, IfOk};
ghost use Rattle.std.specs.Prelude.{IsTrue};
ghost use Rattle.amx_ops.specs.Instructions as instructions;
ghost use Rattle.amx_ops.specs.Instructions.{fetched, front};
ghost use Rattle.amx_ops.specs.Valid as valid;
ghost use Rattle.amx_verify.specs.Kinds.{StartsAs, kind};
ghost use Rattle.amx_verify.specs.Verdict.{fault_in, Judges};
ghost use Rattle.amx_ops.specs.Writable.{cells_limit};

use super::fault::VerifyFault;
use super::instructions::check_whole;
use super::marked::Marked;
use amx_ops::Amx;
use std::alloc::Global;
use std::marker::Model;

/// A file whose code is valid (Implementer's Guide, "Instruction reference"), with what the machine
/// asks of it while it runs. Contracts see the file. [`verify`] alone makes it.
#[derive(Debug, Drop)]
pub struct Verified {
    marked: Marked,
}

impl Model for Verified {
    ghost use Rattle.std.specs.Prelude.{◌≡◌, None};
    ghost use Rattle.amx_ops.specs.declared.amx.Amx.{Amx};
    ghost use Rattle.amx_verify.specs.Verdict.{fault_in};

    ghost Value = { Amx };

    ghost view = { λ verified. verified.marked };

    ghost invariant = { λ verified. fault_in verified.marked ≡ None };
}

/// Takes a file whose code is valid and whose entries begin at instructions, or tells its first
/// fault. Its code, data and room are within the limit of memory.
pub fn verify(alloc: Global, amx: Amx) -> Result<Verified, VerifyFault>
    requires memory { length amx.code + length amx.store + amx.room ≤ cells_limit }
    requires tables { (length amx.publics < 2 ^ 31) × (length amx.natives < 2 ^ 31) }
    ensures verdict { Judges result (fault_in amx) }
    ensures kept { IfOk result (λ verified. verified ≡ amx) }
{
    check_whole(amx.code.as_slice(), amx.natives.len())?;
    let marked = Marked::new(alloc, amx)?;
    marked.check_links()?;
    marked.check_entries()?;
    Ok(Verified { marked })
}

impl Verified {
    /// The file. What is in it is valid.
    pub fn amx(&self) -> &Amx
        ensures value { result.now ≡ self.now }
        ensures valid { valid.IsValid self.now.code (length self.now.natives) self.now.entry
            (map (λ it. it.address) self.now.publics) }
        ensures memory { length self.now.code + length self.now.store + self.now.room
            ≤ cells_limit }
    {
        self.marked.amx()
    }

    pub fn into_amx(self) -> Amx
        ensures { result ≡ self }
    {
        self.marked.into_amx()
    }

    /// Whether an instruction starts at an address, in bytes.
    pub fn is_start(&self, at: i32) -> bool
        ensures { result ≡ valid.leads (instructions.is_start self.now.code) at }
    {
        self.marked.leads(at)
    }

    /// The same of an address without sign.
    #[inline(always)]
    pub fn starts_at(&self, at: u32) -> bool
        ensures is { result ≡ instructions.is_start self.now.code at }
        ensures within { IsTrue result → (at % 4 ≡ 0) × (at / 4 < length self.now.code) }

        // It is the one that the cells from there on begin with.
        ensures here { IsTrue result → fetched self.now.code at ≡
            front (drop (at / 4) self.now.code) }
    {
        self.marked.is_start(at)
    }

    /// The number of the instruction that starts at an address, in bytes; 0 where none does.
    #[inline(always)]
    pub fn kind_at(&self, at: u32) -> u8
        ensures is { result ≡ kind self.now.code at }
        ensures none { result ≡ 0 → instructions.is_start self.now.code at ≡ false }
        ensures some { 0 < result → StartsAs self.now.code at result }
    {
        self.marked.kind_at(at)
    }
}
