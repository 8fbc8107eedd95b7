ghost use Rattle.std.specs.Prelude.{◌≡◌, ◌≢◌, [], ◌∷◌, None, IfOk, option_map};
ghost use Rattle.pawn_meaning.specs.Scope.{extent};
ghost use Rattle.pawn_meaning.specs.View.{array_view};
ghost use Rattle.gen_sim.specs.BaseCode.{base_of, base_item};
ghost use Rattle.gen_expr.specs.Built.{with_items};
ghost use Rattle.gen_expr.specs.Standing.{scope_of, Serves, extent_of};
ghost use Rattle.gen_expr.specs.BaseView.{base_view, perhaps_base};

use super::builder::Builder;
use super::frame::{Frame, object_at, object_reach, param_reach, slot_at, slot_reach, through_at};
use super::reach::Reach;
use amx_ops::Op;
use pawn_base::Memory;
use pawn_meaning::Array;

/// The address of an array that an instruction sets ALT to by itself: the address of an object, the
/// offset of a slot's own cells from FRM, or that of a parameter which holds the address.
#[derive(Clone, Copy, Debug)]
pub enum Base {
    Object(i32),
    Own(i32),
    Param(i32),
}

/// That of an array without an index.
pub fn base_of(a: &Array, frame: &Frame<'_>) -> Result<Option<Base>, Memory>
    requires { Serves frame.now }
    ensures { IfOk result (λ found.
        perhaps_base found ≡ base_of (scope_of frame.now) (array_view a.now)) }
{
    match a {
        Array::Object(o) => Ok(Some(Base::Object(object_at(*o, frame)?))),
        Array::SlotArray(s) => Ok(Some(Base::Own(slot_at(*s, frame)?))),
        Array::ParamArray(s, _) => Ok(Some(Base::Param(through_at(*s)?))),
        Array::Row(..) | Array::From(..) => Ok(None),
    }
}

/// Code behind which an index comes: the array's address waits where no instruction sets it by
/// itself.
#[derive(Debug, Drop)]
pub struct Indexed {
    pub code: Builder,
    pub base: Option<Base>,
    pub reach: Reach,
}

/// How far an array without an index reaches.
pub fn reach_of(a: &Array, frame: &Frame<'_>) -> Result<Reach, Memory>
    ensures { IfOk result (λ reach. base_of (scope_of frame.now) (array_view a.now) ≢ None
        → extent_of reach ≡ extent (scope_of frame.now) (array_view a.now)) }
{
    match a {
        Array::Object(o) => Ok(object_reach(*o, frame)),
        Array::SlotArray(s) => Ok(slot_reach(*s, frame)),
        Array::ParamArray(s, known) => param_reach(*s, *known, frame),
        Array::Row(..) | Array::From(..) => Ok(Reach::Nothing),
    }
}

/// What sets ALT to the array's address behind the index: it waits where no instruction does so by
/// itself.
pub fn set_base(base: Option<Base>, b: Builder) -> Result<Builder, Memory>
    ensures { IfOk result (λ r. r ≡ with_items (base_item (perhaps_base base) ∷ []) b) }
{
    match base {
        None => b.put(Op::PopAlt, 0),
        Some(Base::Object(address)) => b.put(Op::ConstAlt, address),
        Some(Base::Own(offset)) => b.put(Op::AddrAlt, offset),
        Some(Base::Param(offset)) => b.put(Op::LoadSAlt, offset),
    }
}
