ghost use Rattle.std.specs.Prelude.{◌≡◌, ◌*◌, ◌+ℤ◌, ◌++◌, ℤ, pos, neg_ℤ, [], ◌∷◌, Some, IfOk};
ghost use Rattle.pawn_meaning.specs.View.{scalar_view, array_view, expr_view};
ghost use Rattle.pawn_meaning.specs.Program.{Element};
ghost use Rattle.pawn_meaning.specs.References.{index_in};
ghost use Rattle.pawn_meaning.specs.Fold.{fold};
ghost use Rattle.gen_sim.specs.SimpleCode.{taking, operator_code};
ghost use Rattle.gen_sim.specs.DirectCode.{direct_of, constant_index};
ghost use Rattle.gen_sim.specs.DirectCode.{direct_load, direct_store, direct_changed};
ghost use Rattle.gen_sim.specs.DirectCode.{direct_step, stepped_back, direct_effect};
ghost use Rattle.gen_expr.specs.Built.{with_items};
ghost use Rattle.gen_expr.specs.Standing.{scope_of, Serves, extent_of};
ghost use Rattle.gen_expr.specs.DirectView.{direct_view, perhaps_direct};

use super::builder::Builder;
use super::frame::{Frame, object_at, object_reach, slot_at, slot_reach, through_at};
use super::operators::operator;
use super::reach::Reach;
use super::right::folded;
use amx_ops::Op;
use pawn_base::Memory;
use pawn_cells::Operator;
use pawn_meaning::{Array, Expr, Scalar};

/// A place that an instruction reaches by itself: the address of a cell of the data, the offset of
/// one of the frame from FRM, or that of a parameter which refers to the cell.
#[derive(Clone, Copy, Debug)]
pub enum Direct {
    Object(i32),
    Own(i32),
    Through(i32),
}

/// That of a place without an index, or with a constant one.
pub fn direct_of(place: &Scalar, frame: &Frame<'_>) -> Result<Option<Direct>, Memory>
    requires { Serves frame.now }
    ensures { IfOk result (λ found.
        perhaps_direct found ≡ direct_of (scope_of frame.now) (scalar_view place.now)) }
{
    match place {
        Scalar::Global(o) => Ok(Some(Direct::Object(object_at(*o, frame)?))),
        Scalar::Slot(s) => Ok(Some(Direct::Own(slot_at(*s, frame)?))),
        Scalar::Through(s) => Ok(Some(Direct::Through(through_at(*s)?))),
        Scalar::Element(a, e) => element_of(a, e, frame),
        Scalar::Char(..) => Ok(None),
    }
}

/// That of an element: a constant index is part of the address, where its array has a known one.
#[inline(never)]
#[tactic(auto, using(crate::proofs::ElementLaws::none_of_param, crate::proofs::ElementLaws::none_of_row, crate::proofs::ElementLaws::none_of_rest))]
fn element_of(a: &Array, e: &Expr, frame: &Frame<'_>) -> Result<Option<Direct>, Memory>
    requires { Serves frame.now }
    ensures { IfOk result (λ found. perhaps_direct found ≡
        direct_of (scope_of frame.now) (Element (array_view a.now) (expr_view e.now))) }
{
    match a {
        Array::Object(o) => match constant_index(object_reach(*o, frame), e) {
            Some(i) => Ok(Some(Direct::Object(cell_behind(object_at(*o, frame)?, i)?))),
            None => Ok(None),
        },
        Array::SlotArray(s) => match constant_index(slot_reach(*s, frame), e) {
            Some(i) => Ok(Some(Direct::Own(cell_behind(slot_at(*s, frame)?, i)?))),
            None => Ok(None),
        },
        Array::ParamArray(..) | Array::Row(..) | Array::From(..) => Ok(None),
    }
}

/// An index that folds, where it is below an array's first size.
fn constant_index(reach: Reach, e: &Expr) -> Option<u32>
    ensures { result ≡ constant_index (extent_of reach) (fold (expr_view e.now)) }
{
    match reach {
        Reach::Known(shape) => match folded(e) {
            Some(v) => index_in(shape.first, v),
            None => None,
        },
        Reach::Nothing | Reach::Open(..) => None,
    }
}

/// An index below a size: a negative one is none.
fn index_in(size: u32, v: i32) -> Option<u32>
    ensures { result ≡ index_in size v }
{
    if v < 0 {
        return None;
    }
    let i = v as u32;
    if i < size { Some(i) } else { None }
}

/// The address, or the offset, of a cell so far behind one.
fn cell_behind(first: i32, i: u32) -> Result<i32, Memory>
    ensures { IfOk result (λ x. x ≡ first +ℤ pos (4 * i)) }
{
    let at = i64::from(first) + 4 * i64::from(i);
    if at < 2_147_483_648 {
        Ok(at as i32)
    } else {
        Err(Memory)
    }
}

/// A number with the other sign. The least one has none.
fn negative(v: i32) -> Result<i32, Memory>
    ensures { IfOk result (λ x. x ≡ neg_ℤ v) }
{
    match v.checked_neg() {
        Some(x) => Ok(x),
        None => Err(Memory),
    }
}

impl Direct {
    /// Its cell, to PRI.
    pub fn load(self, b: Builder) -> Result<Builder, Memory>
        ensures { IfOk result (λ r. r ≡ with_items (direct_load (direct_view self)) b) }
    {
        match self {
            Direct::Object(address) => b.put(Op::LoadPri, address),
            Direct::Own(offset) => b.put(Op::LoadSPri, offset),
            Direct::Through(offset) => b.put(Op::LrefSPri, offset),
        }
    }

    /// PRI, to its cell.
    pub fn store(self, b: Builder) -> Result<Builder, Memory>
        ensures { IfOk result (λ r. r ≡ with_items (direct_store (direct_view self)) b) }
    {
        match self {
            Direct::Object(address) => b.put(Op::StorPri, address),
            Direct::Own(offset) => b.put(Op::StorSPri, offset),
            Direct::Through(offset) => b.put(Op::SrefSPri, offset),
        }
    }

    /// Its cell, to ALT.
    pub fn load_alt(self, b: Builder) -> Result<Builder, Memory>
        ensures { IfOk result (λ r. let d = direct_view self in
            r ≡ with_items (taking d.loads_alt d.operand ∷ []) b) }
    {
        match self {
            Direct::Object(address) => b.put(Op::LoadAlt, address),
            Direct::Own(offset) => b.put(Op::LoadSAlt, offset),
            Direct::Through(offset) => b.put(Op::LrefSAlt, offset),
        }
    }

    /// An update by an operator, behind the operand.
    #[tactic(auto, using(crate::proofs::GrowLaws::then_grow))]
    pub fn update(self, o: Operator, b: Builder) -> Result<Builder, Memory>
        ensures { IfOk result (λ r.
            r ≡ with_items (direct_changed (direct_view self) (operator_code o)) b) }
    {
        let b = self.load_alt(b)?;
        let b = operator(o, b)?;
        let b = self.store(b)?;
        Ok(b)
    }

    /// A step.
    #[tactic(auto, using(crate::proofs::GrowLaws::then_grow))]
    pub fn step(self, delta: i32, prefix: bool, b: Builder) -> Result<Builder, Memory>
        ensures { IfOk result (λ r.
            r ≡ with_items (direct_step (direct_view self) delta prefix) b) }
    {
        let b = self.load(b)?;
        let b = b.put(Op::AddC, delta)?;
        let b = self.finish_step(delta, prefix, b)?;
        Ok(b)
    }

    /// A step whose value isn't used.
    pub fn step_unused(self, delta: i32, b: Builder) -> Result<Builder, Memory>
        ensures { IfOk result (λ r. let d = direct_view self in
            r ≡ with_items (direct_effect d d.adds delta) b) }
    {
        match self {
            Direct::Object(address) => {
                if delta < 0 {
                    b.put(Op::Dec, address)
                } else {
                    b.put(Op::Inc, address)
                }
            }
            Direct::Own(offset) => {
                if delta < 0 {
                    b.put(Op::DecS, offset)
                } else {
                    b.put(Op::IncS, offset)
                }
            }
            Direct::Through(_) => self.step(delta, true, b),
        }
    }

    /// The end of a step: the new value is stored, and a postfix one's value is that before.
    #[tactic(auto, using(crate::proofs::GrowLaws::then_grow))]
    fn finish_step(self, delta: i32, prefix: bool, b: Builder) -> Result<Builder, Memory>
        ensures { IfOk result (λ r.
            r ≡ with_items (stepped_back (direct_view self) delta prefix) b) }
    {
        if prefix {
            return self.store(b);
        }
        let back = negative(delta)?;
        let b = self.store(b)?;
        let b = b.put(Op::AddC, back)?;
        Ok(b)
    }
}
