ghost use Rattle.std.specs.Prelude.{◌≡◌, ◌*◌, ◌++◌, [], ◌∷◌, pos, IfOk, Some};
ghost use Rattle.gen_sim.specs.SimpleCode.{alone, taking};
ghost use Rattle.gen_sim.specs.BaseCode.{base_item};
ghost use Rattle.gen_sim.specs.IndexCode.{bounds_code, row_code};
ghost use Rattle.gen_expr.specs.Built.{with_items};
ghost use Rattle.gen_expr.specs.BaseView.{perhaps_base};

use super::base::{Base, set_base};
use super::builder::Builder;
use super::operators::two;
use super::put::cell_of;
use amx_ops::Op;
use pawn_base::Memory;

/// The test that always fails, as there is no index below 0.
#[tactic(auto, using(crate::proofs::GrowLaws::then_grow))]
fn never(b: Builder) -> Result<Builder, Memory>
    ensures { IfOk result (λ r. r ≡ with_items (bounds_code (Some 0)) b) }
{
    let b = b.put(Op::ConstPri, 1)?;
    let b = b.put(Op::Bounds, 0)?;
    Ok(b)
}

/// The test of an index below a size.
#[tactic(auto, using(crate::proofs::ShapeLaws::bounds_grow))]
fn below(n: u64, b: Builder) -> Result<Builder, Memory>
    ensures { IfOk result (λ r. r ≡ with_items (bounds_code (Some n)) b) }
{
    if n == 0 {
        return never(b);
    }
    let last = cell_of(n - 1)?;
    let b = b.put(Op::Bounds, last)?;
    Ok(b)
}

/// The same, where the size is known.
#[tactic(auto, using(crate::proofs::GrowLaws::none_grow))]
pub fn bounds(size: Option<u64>, b: Builder) -> Result<Builder, Memory>
    ensures { IfOk result (λ r. r ≡ with_items (bounds_code size) b) }
{
    match size {
        None => Ok(b),
        Some(n) => below(n, b),
    }
}

/// Behind an index: its test, and the array's address to ALT.
#[tactic(auto, using(crate::proofs::GrowLaws::then_grow))]
pub fn element(size: Option<u64>, base: Option<Base>, b: Builder) -> Result<Builder, Memory>
    ensures { IfOk result (λ r.
        r ≡ with_items (bounds_code size ++ base_item (perhaps_base base) ∷ []) b) }
{
    let b = bounds(size, b)?;
    let b = set_base(base, b)?;
    Ok(b)
}

/// ALIGN turns the order of the bytes.
#[tactic(auto, using(crate::proofs::GrowLaws::then_grow))]
fn align(base: Option<Base>, b: Builder) -> Result<Builder, Memory>
    ensures { IfOk result (λ r.
        r ≡ with_items (taking Op.AlignPri (pos 1) ∷ base_item (perhaps_base base) ∷ []) b) }
{
    let b = b.put(Op::AlignPri, 1)?;
    let b = set_base(base, b)?;
    Ok(b)
}

/// Behind the index of a packed character, of which there are so many.
#[tactic(auto, using(crate::proofs::GrowLaws::then_grow))]
pub fn character(count: Option<u64>, base: Option<Base>, b: Builder) -> Result<Builder, Memory>
    ensures { IfOk result (λ r. r ≡ with_items (bounds_code count ++
        (taking Op.AlignPri (pos 1) ∷ base_item (perhaps_base base) ∷ [])) b) }
{
    let b = bounds(count, b)?;
    let b = align(base, b)?;
    Ok(b)
}

/// The address of a row: its offset counts from the cell where it stands.
#[tactic(auto, using(crate::proofs::GrowLaws::then_grow))]
pub fn row(b: Builder) -> Result<Builder, Memory>
    ensures { IfOk result (λ r. r ≡ with_items row_code b) }
{
    let b = two(Op::Idxaddr, Op::MoveAlt, b)?;
    let b = two(Op::LoadI, Op::Add, b)?;
    Ok(b)
}

/// So many cells are copied; the value is 0.
#[tactic(auto, using(crate::proofs::GrowLaws::then_grow))]
pub fn copy(n: u32, b: Builder) -> Result<Builder, Memory>
    ensures { IfOk result (λ r. r ≡ with_items (alone Op.PopAlt ∷
        taking Op.Movs (pos (4 * n)) ∷ alone Op.ZeroPri ∷ []) b) }
{
    let bytes = cell_of(4 * u64::from(n))?;
    let b = b.put(Op::PopAlt, 0)?;
    let b = b.put(Op::Movs, bytes)?;
    let b = b.put(Op::ZeroPri, 0)?;
    Ok(b)
}
