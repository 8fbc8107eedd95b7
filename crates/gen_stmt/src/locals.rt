ghost use Rattle.std.specs.Prelude.{◌≡◌, ◌≤◌, ◌+◌, ◌-◌, ◌*◌, [], ◌∷◌, ◌++◌, ℕ, pos, neg_ℤ, List};
ghost use Rattle.std.specs.Prelude.{None, Some, length, take, IfOk, map, slice_get};
ghost use Rattle.pawn_meaning.specs.Program.{Slot as PlainSlot};
ghost use Rattle.pawn_meaning.specs.View.{slot_view};
ghost use Rattle.gen_sim.specs.FlowCode.{made_cells};
ghost use Rattle.gen_expr.specs.Standing.{scope_of, Serves};
ghost use Rattle.gen_stmt.specs.Keeps.{AreOffsets, Keeps, AreObjects};
ghost use Rattle.gen_stmt.specs.Keeps.{scope_in, HasFirst, Without};

use super::place::{Place, own_cells};
use gen_expr::frame::Frame;
use gen_expr::put::cell_of;
use pawn_base::Memory;

/// The locals in force in a body, in the order in which they were made, with the offset from FRM of
/// each slot in force, and the cells that they take.
#[derive(Drop)]
pub struct Locals {
    made: Vec<u32>,
    offsets: Vec<Option<i32>>,
    cells: u64,
}

/// Where a block or a loop's body began: how many locals were in force, and their cells.
#[derive(Clone, Copy)]
pub struct Mark {
    pub made: usize,
    pub cells: u64,
}

/// The offset of a parameter, or none.
fn first_offset(s: usize, params: u32) -> Result<Option<i32>, Memory>
    ensures { IfOk result (HasFirst params s) }
{
    if s < params as usize {
        let offset = cell_of(12 + 4 * s as u64)?;
        Ok(Some(offset))
    } else {
        Ok(None)
    }
}

/// The cells of locals, and of one more.
fn sum(cells: u64, own: u32) -> Result<u64, Memory>
    ensures { IfOk result (λ n. n ≡ cells + own) }
{
    if cells >= 1_073_741_824 {
        return Err(Memory);
    }
    Ok(cells + u64::from(own))
}

/// The offset of a local, which lies so many cells below FRM.
fn below(cells: u64) -> Result<i32, Memory>
    ensures { IfOk result (λ x. x ≡ neg_ℤ (pos (4 * cells))) }
{
    if cells >= 1_073_741_824 {
        return Err(Memory);
    }
    let bytes = cell_of(4 * cells)?;
    Ok(-bytes)
}

/// A slot has no offset any more.
fn hide(s: u32, offsets: &mut Vec<Option<i32>>)
    ensures { Without s offsets.old.items offsets.new.items }
{
    if (s as usize) < offsets.len() {
        offsets[s as usize] = None;
    }
}

impl Locals {
    /// The parameters alone.
    pub fn new(place: &Place<'_>) -> Result<Locals, Memory>
        ensures made { IfOk result (λ locals. locals.made.items ≡ []) }
        ensures keeps { IfOk result (Keeps (map slot_view place.now.slots.now) place.now.params) }
    {
        let mut offsets = Vec::new(place.alloc);
        for s in 0..place.slots.len() {
            offsets.push(first_offset(s, place.params)?)?;
        }
        Ok(Locals {
            made: Vec::new(place.alloc),
            offsets,
            cells: 0,
        })
    }

    /// Where an expression stands.
    pub fn frame<'a>(&'a self, place: &Place<'a>) -> Frame<'a>
        requires objects { AreObjects place.now }
        requires keeps { Keeps (map slot_view place.now.slots.now) place.now.params self.now }
        ensures scope { scope_of result ≡ scope_in place.now self.now.made.items }
        ensures serves { Serves result }
    {
        Frame {
            alloc: place.alloc,
            program: place.program,
            slots: place.slots,
            params: place.params,
            made: self.made.as_slice(),
            objects: place.objects,
            offsets: self.offsets.as_slice(),
        }
    }

    /// What is in force.
    pub fn mark(&self) -> Mark
        ensures { result ≡ record { made = length self.now.made.items; cells = self.now.cells } }
    {
        Mark {
            made: self.made.len(),
            cells: self.cells,
        }
    }

    /// That a slot is no parameter, and isn't in force.
    fn is_free(&self, s: u32, params: u32) -> Result<(), Memory>
        ensures free { IfOk result (λ _. slice_get self.now.offsets.items s ≡ Some None) }
        ensures local { IfOk result (λ _. params ≤ s) }
    {
        match self.offsets.get(s as usize) {
            Some(None) if s >= params => Ok(()),
            _ => Err(Memory),
        }
    }

    /// Makes a slot. One that is in force, or isn't the body's, is answered as want of memory.
    pub fn make(&mut self, s: u32, place: &Place<'_>) -> Result<(), Memory>
        requires { Keeps (map slot_view place.now.slots.now) place.now.params self.old }
        ensures made { IfOk result (λ _. self.new.made.items ≡ self.old.made.items ++ s ∷ []) }
        ensures keeps { IfOk result (λ _.
            Keeps (map slot_view place.now.slots.now) place.now.params self.new) }
    {
        self.is_free(s, place.params)?;
        let own = own_cells(s, place.slots)?;
        let cells = sum(self.cells, own)?;
        let offset = below(cells)?;
        self.made.push(s)?;
        self.offsets[s as usize] = Some(offset);
        self.cells = cells;
        Ok(())
    }

    /// Takes the newest slot out of force.
    fn unmake(&mut self)
        ensures made { self.new.made.items ≡
            take (length self.old.made.items - 1) self.old.made.items }
        ensures offsets { (slots : List PlainSlot) (params : ℕ) →
            AreOffsets slots params self.old.made.items self.old.offsets.items →
            AreOffsets slots params self.new.made.items self.new.offsets.items }
    {
        if let Some(s) = self.made.pop() {
            hide(s, &mut self.offsets);
        }
    }

    /// Takes the slots out of force that were made since a mark.
    pub fn leave(&mut self, mark: Mark)
        ensures made { self.new.made.items ≡ take mark.made self.old.made.items }
        ensures keeps { (slots : List PlainSlot) (params : ℕ) → Keeps slots params self.old →
            mark.cells ≡ made_cells slots (take mark.made self.old.made.items) →
            Keeps slots params self.new }
    {
        while self.made.len() > mark.made {
            self.unmake();
        }
        self.cells = mark.cells;
    }
}
