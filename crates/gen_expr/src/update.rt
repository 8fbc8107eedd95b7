ghost use Rattle.std.specs.Prelude.{◌≡◌, ◌++◌, ◌∷◌, Some, None, IfOk};
ghost use Rattle.pawn_meaning.specs.View.{scalar_view};
ghost use Rattle.gen_sim.specs.SimpleCode.{alone};
ghost use Rattle.gen_sim.specs.AccessCode.{load_code, store_code};
ghost use Rattle.gen_sim.specs.DirectCode.{direct_load, direct_store};
ghost use Rattle.gen_expr.specs.Built.{with_items};
ghost use Rattle.gen_expr.specs.DirectView.{direct_view};
ghost use Rattle.gen_expr.specs.RightView.{right_view};
ghost use Rattle.gen_expr.specs.TargetCode.{change_part, popped_part, update_part};

use super::access::{load, store, stored};
use super::builder::Builder;
use super::direct::Direct;
use super::operators::two;
use super::right::{Right, leaves_alt};
use amx_ops::Op;
use pawn_base::Memory;
use pawn_cells::Operator;
use pawn_meaning::Scalar;

/// What was there is loaded and changed, and stored to the address that waits.
#[tactic(auto, using(crate::proofs::GrowLaws::then_grow))]
fn change_popped(place: &Scalar, o: Operator, how: Right, b: Builder) -> Result<Builder, Memory>
    ensures { IfOk result (λ r. r ≡ with_items
        (popped_part (scalar_view place.now) (change_part o (right_view how))) b) }
{
    let b = load(place, b)?;
    let b = how.change(o, b)?;
    let b = stored(place, b)?;
    Ok(b)
}

/// It is loaded and changed, and stored to the address in ALT.
#[tactic(auto, using(crate::proofs::GrowLaws::then_grow))]
fn change_kept(place: &Scalar, o: Operator, how: Right, b: Builder) -> Result<Builder, Memory>
    ensures { IfOk result (λ r. let p = scalar_view place.now in r ≡ with_items
        (load_code p ++ (change_part o (right_view how) ++ store_code p)) b) }
{
    let b = load(place, b)?;
    let b = how.change(o, b)?;
    let b = store(place, b)?;
    Ok(b)
}

/// The address goes to ALT.
#[tactic(auto, using(crate::proofs::GrowLaws::then_grow))]
fn update_kept(place: &Scalar, o: Operator, how: Right, b: Builder) -> Result<Builder, Memory>
    ensures { IfOk result (λ r. let p = scalar_view place.now in r ≡ with_items
        (alone Op.MoveAlt ∷ (load_code p ++ (change_part o (right_view how) ++ store_code p))) b) }
{
    let b = b.put(Op::MoveAlt, 0)?;
    let b = change_kept(place, o, how, b)?;
    Ok(b)
}

/// The address waits on the stack.
#[tactic(auto, using(crate::proofs::GrowLaws::then_grow))]
fn update_pushed(place: &Scalar, o: Operator, how: Right, b: Builder) -> Result<Builder, Memory>
    ensures { IfOk result (λ r. r ≡ with_items (alone Op.PushPri
        ∷ popped_part (scalar_view place.now) (change_part o (right_view how))) b) }
{
    let b = b.put(Op::PushPri, 0)?;
    let b = change_popped(place, o, how, b)?;
    Ok(b)
}

/// The operand in PRI goes to ALT, and the address that waited waits again.
#[tactic(auto, using(crate::proofs::GrowLaws::then_grow))]
fn update_waited(place: &Scalar, o: Operator, how: Right, b: Builder) -> Result<Builder, Memory>
    ensures { IfOk result (λ r. r ≡ with_items (alone Op.PopAlt ∷ alone Op.PushAlt ∷ alone Op.Xchg
        ∷ popped_part (scalar_view place.now) (change_part o (right_view how))) b) }
{
    let b = b.put(Op::PopAlt, 0)?;
    let b = two(Op::PushAlt, Op::Xchg, b)?;
    let b = change_popped(place, o, how, b)?;
    Ok(b)
}

/// An update at the place's address, which is in PRI, or waits where the operand is in PRI.
pub fn update_there(place: &Scalar, o: Operator, how: Right, b: Builder) -> Result<Builder, Memory>
    ensures { IfOk result (λ r. r ≡ with_items
        (update_part None (right_view how) (scalar_view place.now) o) b) }
{
    match how {
        Right::Known(_) => {
            if leaves_alt(o) {
                update_kept(place, o, how, b)
            } else {
                update_pushed(place, o, how, b)
            }
        }
        Right::Placed(_) => update_pushed(place, o, how, b),
        Right::Waiting => update_waited(place, o, how, b),
    }
}

/// What is there is loaded and changed, and stored, by the place's own instructions.
#[tactic(auto, using(crate::proofs::GrowLaws::then_grow))]
fn change_direct(d: Direct, o: Operator, how: Right, b: Builder) -> Result<Builder, Memory>
    ensures { IfOk result (λ r. let at = direct_view d in r ≡ with_items
        (direct_load at ++ (change_part o (right_view how) ++ direct_store at)) b) }
{
    let b = d.load(b)?;
    let b = how.change(o, b)?;
    let b = d.store(b)?;
    Ok(b)
}

/// An update by the place's own instructions; an operand that isn't quiet is in PRI.
pub fn update_direct(
    place: &Scalar,
    d: Direct,
    o: Operator,
    how: Right,
    b: Builder,
) -> Result<Builder, Memory>
    ensures { IfOk result (λ r. r ≡ with_items
        (update_part (Some (direct_view d)) (right_view how) (scalar_view place.now) o) b) }
{
    match how {
        Right::Known(_) | Right::Placed(_) => change_direct(d, o, how, b),
        Right::Waiting => d.update(o, b),
    }
}
