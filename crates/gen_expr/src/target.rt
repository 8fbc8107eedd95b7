ghost use Rattle.std.specs.Prelude.{◌≡◌, ℤ, IfOk};
ghost use Rattle.pawn_meaning.specs.View.{scalar_view};
ghost use Rattle.gen_expr.specs.Built.{with_items};
ghost use Rattle.gen_expr.specs.DirectView.{perhaps_direct};
ghost use Rattle.gen_expr.specs.RightView.{right_view};
ghost use Rattle.gen_expr.specs.TargetCode.{write_part, update_part, step_part};
ghost use Rattle.gen_expr.specs.TargetCode.{effect_part, effect_there_part};

use super::access::{store, stored};
use super::builder::Builder;
use super::direct::Direct;
use super::right::Right;
use super::steps::stepped;
use super::update::{update_direct, update_there};
use amx_ops::Op;
use pawn_base::Memory;
use pawn_cells::Operator;
use pawn_meaning::Scalar;

/// Code behind which a place is read or written. The place is direct, or its address is in PRI, or
/// waits where a value is in PRI.
#[derive(Debug, Drop)]
pub struct Target {
    pub code: Builder,
    pub direct: Option<Direct>,
}

/// Code behind which a value is stored, or makes a new one, with how the value comes.
#[derive(Debug, Drop)]
pub struct Valued {
    pub code: Builder,
    pub direct: Option<Direct>,
    pub how: Right,
}

/// The value in PRI is stored.
pub fn write(place: &Scalar, at: Valued) -> Result<Builder, Memory>
    ensures { IfOk result (λ r. r ≡ with_items
        (write_part (perhaps_direct at.direct) (right_view at.how) (scalar_view place.now))
        at.code) }
{
    let Valued { code, direct, how } = at;
    match direct {
        None => match how {
            Right::Known(_) | Right::Placed(_) => store(place, code),
            Right::Waiting => stored(place, code),
        },
        Some(d) => d.store(code),
    }
}

/// An operator makes a new value of what is there and the operand, and it is stored.
pub fn update(place: &Scalar, o: Operator, at: Valued) -> Result<Builder, Memory>
    ensures { IfOk result (λ r. r ≡ with_items
        (update_part (perhaps_direct at.direct) (right_view at.how) (scalar_view place.now) o)
        at.code) }
{
    let Valued { code, direct, how } = at;
    match direct {
        None => update_there(place, o, how, code),
        Some(d) => update_direct(place, d, o, how, code),
    }
}

/// A step.
pub fn step(place: &Scalar, delta: i32, prefix: bool, at: Target) -> Result<Builder, Memory>
    ensures { IfOk result (λ r. r ≡ with_items
        (step_part (perhaps_direct at.direct) (scalar_view place.now) delta prefix) at.code) }
{
    let Target { code, direct } = at;
    match direct {
        None => stepped(place, delta, prefix, code),
        Some(d) => d.step(delta, prefix, code),
    }
}

/// A step at the address in PRI, whose value isn't used.
fn step_there(place: &Scalar, delta: i32, b: Builder) -> Result<Builder, Memory>
    ensures { IfOk result (λ r.
        r ≡ with_items (effect_there_part (scalar_view place.now) delta) b) }
{
    match place {
        Scalar::Char(..) => stepped(place, delta, true, b),
        Scalar::Global(_) | Scalar::Slot(_) | Scalar::Through(_) | Scalar::Element(..) => {
            if delta < 0 {
                b.put(Op::DecI, 0)
            } else {
                b.put(Op::IncI, 0)
            }
        }
    }
}

/// A step whose value isn't used.
pub fn step_unused(place: &Scalar, delta: i32, at: Target) -> Result<Builder, Memory>
    ensures { IfOk result (λ r. r ≡ with_items
        (effect_part (perhaps_direct at.direct) (scalar_view place.now) delta) at.code) }
{
    let Target { code, direct } = at;
    match direct {
        None => step_there(place, delta, code),
        Some(d) => d.step_unused(delta, code),
    }
}
