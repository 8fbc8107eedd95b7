ghost use Rattle.std.specs.Prelude.{◌≡◌, [], ◌∷◌, IfOk};
ghost use Rattle.pawn_meaning.specs.View.{scalar_view, array_view, expr_view};
ghost use Rattle.gen_sim.specs.SimpleCode.{taking};
ghost use Rattle.gen_sim.specs.PushCode.{right_push, value_push, place_push, array_push};
ghost use Rattle.gen_expr.specs.Built.{with_items};
ghost use Rattle.gen_expr.specs.PushView.{push_view, perhaps_push};
ghost use Rattle.gen_expr.specs.RightView.{right_view};
ghost use Rattle.gen_expr.specs.Standing.{scope_of, Serves};

use super::builder::Builder;
use super::direct::Direct;
use super::frame::{Frame, object_at, slot_at, through_at};
use super::right::{Right, right_of};
use amx_ops::Op;
use pawn_base::Memory;
use pawn_meaning::{Array, Expr, Scalar};

/// What one instruction pushes.
#[derive(Clone, Copy, Debug)]
pub enum Push {
    /// This cell.
    Known(i32),
    /// The cell at this address.
    Object(i32),
    /// The cell at this offset from FRM.
    Own(i32),
    /// The address at this offset from FRM.
    Address(i32),
}

impl Push {
    /// Its instruction.
    pub fn append(self, b: Builder) -> Result<Builder, Memory>
        ensures { IfOk result (λ r. let it = push_view self in
            r ≡ with_items (taking it.0 it.1 ∷ []) b) }
    {
        match self {
            Push::Known(v) => b.put(Op::PushC, v),
            Push::Object(address) => b.put(Op::Push, address),
            Push::Own(offset) => b.put(Op::PushS, offset),
            Push::Address(offset) => b.put(Op::PushAdr, offset),
        }
    }
}

/// What pushes a value that comes so, where one instruction does.
fn right_push(how: Right) -> Option<Push>
    ensures { perhaps_push result ≡ right_push (right_view how) }
{
    match how {
        Right::Known(v) => Some(Push::Known(v)),
        Right::Placed(Direct::Object(address)) => Some(Push::Object(address)),
        Right::Placed(Direct::Own(offset)) => Some(Push::Own(offset)),
        Right::Placed(Direct::Through(_)) => None,
        Right::Waiting => None,
    }
}

/// What pushes the value of an expression.
pub fn value_push(e: &Expr, frame: &Frame<'_>) -> Result<Option<Push>, Memory>
    requires { Serves frame.now }
    ensures { IfOk result (λ push.
        perhaps_push push ≡ value_push (scope_of frame.now) (expr_view e.now)) }
{
    let how = right_of(e, frame)?;
    Ok(right_push(how))
}

/// What pushes the address of a place.
pub fn place_push(place: &Scalar, frame: &Frame<'_>) -> Result<Option<Push>, Memory>
    requires { Serves frame.now }
    ensures { IfOk result (λ push.
        perhaps_push push ≡ place_push (scope_of frame.now) (scalar_view place.now)) }
{
    match place {
        Scalar::Global(o) => Ok(Some(Push::Known(object_at(*o, frame)?))),
        Scalar::Slot(s) => Ok(Some(Push::Address(slot_at(*s, frame)?))),
        Scalar::Through(s) => Ok(Some(Push::Own(through_at(*s)?))),
        Scalar::Element(..) | Scalar::Char(..) => Ok(None),
    }
}

/// What pushes the address of an array.
pub fn array_push(a: &Array, frame: &Frame<'_>) -> Result<Option<Push>, Memory>
    requires { Serves frame.now }
    ensures { IfOk result (λ push.
        perhaps_push push ≡ array_push (scope_of frame.now) (array_view a.now)) }
{
    match a {
        Array::Object(o) => Ok(Some(Push::Known(object_at(*o, frame)?))),
        Array::SlotArray(s) => Ok(Some(Push::Address(slot_at(*s, frame)?))),
        Array::ParamArray(s, _) => Ok(Some(Push::Own(through_at(*s)?))),
        Array::Row(..) | Array::From(..) => Ok(None),
    }
}
