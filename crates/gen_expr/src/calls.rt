ghost use Rattle.std.specs.Prelude.{◌≡◌, ◌++◌, [], ◌∷◌, pos, IfOk};
ghost use Rattle.gen_sim.specs.Items.{CallOf};
ghost use Rattle.gen_sim.specs.SimpleCode.{alone, taking};
ghost use Rattle.gen_sim.specs.CallCode.{one_code, two_code, convert_code};
ghost use Rattle.gen_expr.specs.Built.{with_items};

use super::builder::Builder;
use super::put::call;
use amx_ops::Op;
use pawn_base::Memory;

/// A user's operator on the value in PRI.
#[tactic(auto, using(crate::proofs::GrowLaws::then_grow))]
pub fn one(f: u32, b: Builder) -> Result<Builder, Memory>
    ensures { IfOk result (λ r. r ≡ with_items (one_code f) b) }
{
    let b = b.put(Op::PushPri, 0)?;
    let b = b.put(Op::PushC, 4)?;
    let b = call(f, b)?;
    Ok(b)
}

/// A user's operator whose arguments are pushed.
#[tactic(auto, using(crate::proofs::GrowLaws::then_grow))]
fn called(f: u32, b: Builder) -> Result<Builder, Memory>
    ensures { IfOk result (λ r. r ≡ with_items (taking Op.PushC (pos 8) ∷ CallOf f ∷ []) b) }
{
    let b = b.put(Op::PushC, 8)?;
    let b = call(f, b)?;
    Ok(b)
}

/// A user's operator on what is in ALT and in PRI, which may be exchanged.
#[tactic(auto, using(crate::proofs::GrowLaws::then_grow))]
pub fn two_by(f: u32, swapped: bool, b: Builder) -> Result<Builder, Memory>
    ensures { IfOk result (λ r. r ≡ with_items (two_code f swapped) b) }
{
    if swapped {
        let b = b.put(Op::PushAlt, 0)?;
        let b = b.put(Op::PushPri, 0)?;
        let b = called(f, b)?;
        Ok(b)
    } else {
        let b = b.put(Op::PushPri, 0)?;
        let b = b.put(Op::PushAlt, 0)?;
        let b = called(f, b)?;
        Ok(b)
    }
}

/// A user's operator that converts the value in PRI, where there is one.
#[tactic(auto, using(crate::proofs::GrowLaws::none_grow))]
pub fn convert(f: Option<u32>, b: Builder) -> Result<Builder, Memory>
    ensures { IfOk result (λ r. r ≡ with_items (convert_code f) b) }
{
    match f {
        None => Ok(b),
        Some(f) => one(f, b),
    }
}

/// A user's operator, behind its operands of which the left one waits.
#[tactic(auto, using(crate::proofs::GrowLaws::then_grow))]
pub fn operated(f: u32, swapped: bool, b: Builder) -> Result<Builder, Memory>
    ensures { IfOk result (λ r. r ≡ with_items (alone Op.PopAlt ∷ two_code f swapped) b) }
{
    let b = b.put(Op::PopAlt, 0)?;
    let b = two_by(f, swapped, b)?;
    Ok(b)
}
