ghost use Rattle.std.specs.Prelude.{◌≡◌, ℤ, ◌++◌, [], ◌∷◌, IfOk};
ghost use Rattle.pawn_meaning.specs.View.{scalar_view};
ghost use Rattle.gen_sim.specs.SimpleCode.{alone, taking};
ghost use Rattle.gen_sim.specs.AccessCode.{load_code, store_code, stepped_code, turned_code};
ghost use Rattle.gen_sim.specs.CallCode.{one_code};
ghost use Rattle.gen_expr.specs.Built.{with_items};

use super::access::{load, store, stored};
use super::builder::Builder;
use super::calls::one;
use super::operators::two;
use amx_ops::Op;
use pawn_base::Memory;
use pawn_meaning::Scalar;

/// A step, behind the address.
#[tactic(auto, using(crate::proofs::GrowLaws::then_grow))]
pub fn stepped(place: &Scalar, delta: i32, prefix: bool, b: Builder) -> Result<Builder, Memory>
    ensures { IfOk result (λ r. let p = scalar_view place.now in
        r ≡ with_items (alone Op.MoveAlt ∷ (load_code p ++ stepped_code p delta prefix)) b) }
{
    let b = b.put(Op::MoveAlt, 0)?;
    let b = load(place, b)?;
    let b = step(place, delta, prefix, b)?;
    Ok(b)
}

/// A step by a user's operator, behind the address.
#[tactic(auto, using(crate::proofs::GrowLaws::then_grow))]
pub fn turned(place: &Scalar, f: u32, prefix: bool, b: Builder) -> Result<Builder, Memory>
    ensures { IfOk result (λ r. let p = scalar_view place.now in
        r ≡ with_items
        (alone Op.MoveAlt ∷ (load_code p ++ turned_code p (one_code f) prefix)) b) }
{
    let b = b.put(Op::MoveAlt, 0)?;
    let b = load(place, b)?;
    let b = turn(place, f, prefix, b)?;
    Ok(b)
}

/// Stores, and takes the value that waits.
#[tactic(auto, using(crate::proofs::GrowLaws::then_grow))]
fn restored(place: &Scalar, b: Builder) -> Result<Builder, Memory>
    ensures { IfOk result (λ r.
        r ≡ with_items (store_code (scalar_view place.now) ++ alone Op.PopPri ∷ []) b) }
{
    let b = store(place, b)?;
    let b = b.put(Op::PopPri, 0)?;
    Ok(b)
}

/// A step of the value in PRI, whose address is in ALT.
#[tactic(auto, using(crate::proofs::GrowLaws::then_grow))]
fn step(place: &Scalar, delta: i32, prefix: bool, b: Builder) -> Result<Builder, Memory>
    ensures { IfOk result (λ r.
        r ≡ with_items (stepped_code (scalar_view place.now) delta prefix) b) }
{
    if prefix {
        let b = b.put(Op::AddC, delta)?;
        let b = store(place, b)?;
        Ok(b)
    } else {
        let b = b.put(Op::PushPri, 0)?;
        let b = b.put(Op::AddC, delta)?;
        let b = restored(place, b)?;
        Ok(b)
    }
}

/// Stores to the address that waits, and takes the value that waits below it.
#[tactic(auto, using(crate::proofs::GrowLaws::then_grow))]
fn returned(place: &Scalar, b: Builder) -> Result<Builder, Memory>
    ensures { IfOk result (λ r. r ≡ with_items
        (alone Op.PopAlt ∷ (store_code (scalar_view place.now) ++ alone Op.PopPri ∷ [])) b) }
{
    let b = b.put(Op::PopAlt, 0)?;
    let b = restored(place, b)?;
    Ok(b)
}

/// A step of the value in PRI by a user's operator.
#[tactic(auto, using(crate::proofs::GrowLaws::then_grow))]
fn turn(place: &Scalar, f: u32, prefix: bool, b: Builder) -> Result<Builder, Memory>
    ensures { IfOk result (λ r.
        r ≡ with_items (turned_code (scalar_view place.now) (one_code f) prefix) b) }
{
    if prefix {
        let b = b.put(Op::PushAlt, 0)?;
        let b = one(f, b)?;
        let b = stored(place, b)?;
        Ok(b)
    } else {
        let b = two(Op::PushPri, Op::PushAlt, b)?;
        let b = one(f, b)?;
        let b = returned(place, b)?;
        Ok(b)
    }
}
