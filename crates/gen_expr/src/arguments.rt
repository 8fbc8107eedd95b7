ghost use Rattle.std.specs.Prelude.{◌≡◌, ◌+◌, ◌*◌, ◌++◌, [], ◌∷◌, pos, neg_ℤ, IfOk};
ghost use Rattle.gen_sim.specs.Items.{CallOf};
ghost use Rattle.gen_sim.specs.SimpleCode.{alone, taking};
ghost use Rattle.gen_sim.specs.CallCode.{give_back_code};
ghost use Rattle.gen_expr.specs.Built.{with_items};

use super::builder::Builder;
use super::operators::two;
use super::put::{call, cell_of};
use amx_ops::Op;
use pawn_base::Memory;

/// A temporary argument's cell, behind its value.
#[tactic(auto, using(crate::proofs::GrowLaws::then_grow))]
pub fn temporary(b: Builder) -> Result<Builder, Memory>
    ensures { IfOk result (λ r. r ≡ with_items
        (taking Op.Heap (pos 4) ∷ alone Op.StorI ∷ alone Op.PushAlt ∷ []) b) }
{
    let b = b.put(Op::Heap, 4)?;
    let b = two(Op::StorI, Op::PushAlt, b)?;
    Ok(b)
}

/// So many cells on the heap are given back.
#[tactic(auto, using(crate::proofs::GrowLaws::none_grow, crate::proofs::ShapeLaws::give_back_grows))]
pub fn give_back(cells: u32, b: Builder) -> Result<Builder, Memory>
    ensures { IfOk result (λ r. r ≡ with_items (give_back_code cells) b) }
{
    if cells == 0 {
        return Ok(b);
    }
    let bytes = cell_of(4 * u64::from(cells))?;
    let b = b.put(Op::Heap, -bytes)?;
    Ok(b)
}

/// A call, behind so many arguments.
#[tactic(auto, using(crate::proofs::GrowLaws::then_grow))]
pub fn counted(f: u32, count: u32, b: Builder) -> Result<Builder, Memory>
    ensures { IfOk result (λ r. r ≡ with_items
        (taking Op.PushC (pos (4 * count)) ∷ CallOf f ∷ []) b) }
{
    let bytes = cell_of(4 * u64::from(count))?;
    let b = b.put(Op::PushC, bytes)?;
    let b = call(f, b)?;
    Ok(b)
}

/// A call of a native, behind so many arguments, which then leave the stack.
#[tactic(auto, using(crate::proofs::GrowLaws::then_grow))]
pub fn native(n: u32, count: u32, b: Builder) -> Result<Builder, Memory>
    ensures { IfOk result (λ r. r ≡ with_items (taking Op.PushC (pos (4 * count)) ∷
        taking Op.SysreqC (pos n) ∷ taking Op.Stack (pos (4 * (count + 1))) ∷ []) b) }
{
    let bytes = cell_of(4 * u64::from(count))?;
    let number = cell_of(u64::from(n))?;
    let all = cell_of(4 * (u64::from(count) + 1))?;
    let b = b.put(Op::PushC, bytes)?;
    let b = b.put(Op::SysreqC, number)?;
    let b = b.put(Op::Stack, all)?;
    Ok(b)
}
