ghost use Rattle.std.specs.Prelude.{◌≡◌, ◌++◌, [], ◌∷◌, pos, IfOk};
ghost use Rattle.pawn_meaning.specs.View.{scalar_view};
ghost use Rattle.gen_sim.specs.SimpleCode.{alone, taking};
ghost use Rattle.gen_sim.specs.AccessCode.{address_code, fetch_code, load_code};
ghost use Rattle.gen_sim.specs.AccessCode.{store_code, changed_code};
ghost use Rattle.gen_sim.specs.CallCode.{two_code, convert_code};
ghost use Rattle.gen_expr.specs.Built.{with_items};
ghost use Rattle.gen_expr.specs.Opened.{opened_code};

use super::builder::Builder;
use super::calls::{convert, two_by};
use super::operators::two;
use amx_ops::Op;
use pawn_base::Memory;
use pawn_meaning::Scalar;

/// The address of a place, from where its index leads.
#[tactic(auto, using(crate::proofs::GrowLaws::none_grow))]
pub fn address(place: &Scalar, b: Builder) -> Result<Builder, Memory>
    ensures { IfOk result (λ r. r ≡ with_items (address_code (scalar_view place.now)) b) }
{
    match place {
        Scalar::Global(_) | Scalar::Slot(_) | Scalar::Through(_) => Ok(b),
        Scalar::Element(..) => b.put(Op::Idxaddr, 0),
        Scalar::Char(..) => b.put(Op::Add, 0),
    }
}

/// The character at the sum of PRI and ALT.
#[tactic(auto, using(crate::proofs::GrowLaws::then_grow))]
fn fetch_character(b: Builder) -> Result<Builder, Memory>
    ensures { IfOk result (λ r.
        r ≡ with_items (alone Op.Add ∷ taking Op.LodbI (pos 1) ∷ []) b) }
{
    let b = b.put(Op::Add, 0)?;
    let b = b.put(Op::LodbI, 1)?;
    Ok(b)
}

/// What stands at a place, from where its index leads.
pub fn fetch(place: &Scalar, b: Builder) -> Result<Builder, Memory>
    ensures { IfOk result (λ r. r ≡ with_items (fetch_code (scalar_view place.now)) b) }
{
    match place {
        Scalar::Global(_) | Scalar::Slot(_) | Scalar::Through(_) => b.put(Op::LoadI, 0),
        Scalar::Element(..) => b.put(Op::Lidx, 0),
        Scalar::Char(..) => fetch_character(b),
    }
}

/// Loads from the address in PRI.
pub fn load(place: &Scalar, b: Builder) -> Result<Builder, Memory>
    ensures { IfOk result (λ r. r ≡ with_items (load_code (scalar_view place.now)) b) }
{
    match place {
        Scalar::Global(_) | Scalar::Slot(_) | Scalar::Through(_) | Scalar::Element(..) => {
            b.put(Op::LoadI, 0)
        }
        Scalar::Char(..) => b.put(Op::LodbI, 1),
    }
}

/// Stores PRI to the address in ALT.
pub fn store(place: &Scalar, b: Builder) -> Result<Builder, Memory>
    ensures { IfOk result (λ r. r ≡ with_items (store_code (scalar_view place.now)) b) }
{
    match place {
        Scalar::Global(_) | Scalar::Slot(_) | Scalar::Through(_) | Scalar::Element(..) => {
            b.put(Op::StorI, 0)
        }
        Scalar::Char(..) => b.put(Op::StrbI, 1),
    }
}

/// Stores PRI to the address that waits.
#[tactic(auto, using(crate::proofs::GrowLaws::then_grow))]
pub fn stored(place: &Scalar, b: Builder) -> Result<Builder, Memory>
    ensures { IfOk result (λ r.
        r ≡ with_items (alone Op.PopAlt ∷ store_code (scalar_view place.now)) b) }
{
    let b = b.put(Op::PopAlt, 0)?;
    let b = store(place, b)?;
    Ok(b)
}

/// What was there is loaded to PRI, and then goes to ALT.
#[tactic(auto, using(crate::proofs::GrowLaws::then_grow))]
fn exchanged(place: &Scalar, b: Builder) -> Result<Builder, Memory>
    ensures { IfOk result (λ r.
        r ≡ with_items (load_code (scalar_view place.now) ++ alone Op.Xchg ∷ []) b) }
{
    let b = load(place, b)?;
    let b = b.put(Op::Xchg, 0)?;
    Ok(b)
}

/// What was there goes to ALT, while the address waits.
#[tactic(auto, using(crate::proofs::GrowLaws::then_grow))]
fn opened(place: &Scalar, b: Builder) -> Result<Builder, Memory>
    ensures { IfOk result (λ r. r ≡ with_items (opened_code (scalar_view place.now)) b) }
{
    let b = b.put(Op::PopAlt, 0)?;
    let b = two(Op::PushAlt, Op::Xchg, b)?;
    let b = exchanged(place, b)?;
    Ok(b)
}

/// What a user's operator makes, converted.
#[tactic(auto, using(crate::proofs::GrowLaws::then_grow))]
fn converted(f: u32, swapped: bool, convert_by: Option<u32>, b: Builder) -> Result<Builder, Memory>
    ensures { IfOk result (λ r. r ≡ with_items (two_code f swapped ++ convert_code convert_by) b) }
{
    let b = two_by(f, swapped, b)?;
    let b = convert(convert_by, b)?;
    Ok(b)
}

/// An update by a user's operator, behind the operand.
#[tactic(auto, using(crate::proofs::ShapeLaws::changed_grows))]
pub fn updated_by(
    place: &Scalar,
    f: u32,
    swapped: bool,
    convert_by: Option<u32>,
    b: Builder,
) -> Result<Builder, Memory>
    ensures { IfOk result (λ r. r ≡ with_items (alone Op.PopAlt ∷
        changed_code (scalar_view place.now) (two_code f swapped ++ convert_code convert_by)) b) }
{
    let b = opened(place, b)?;
    let b = converted(f, swapped, convert_by, b)?;
    let b = stored(place, b)?;
    Ok(b)
}
