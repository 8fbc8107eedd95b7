ghost use Rattle.std.specs.Prelude.{◌≡◌, ◌++◌, map, IfOk};
ghost use Rattle.std.specs.Option.{option_to_list};
ghost use Rattle.pawn_arrays.specs.Sizes.{inner_sizes};
ghost use Rattle.pawn_meaning.specs.View.{slot_view};
ghost use Rattle.pawn_tree.specs.View.{dim_view};
ghost use Rattle.types_rules.specs.Params as spec;
ghost use Rattle.pawn_verdict.specs.Answers.{Answers};
ghost use Rattle.check_nodes.specs.PartAnswers.{PartAnswers};
ghost use Rattle.check_nodes.specs.ContextView.{around_view};
ghost use Rattle.check_nodes.specs.ExtentView.{extent_view};
ghost use Rattle.check_nodes.specs.Scopes.{scope_view};
ghost use Rattle.check_expressions.specs.ValueViews.{dimensions_view};
ghost use Rattle.check_heads.specs.HeadedView.{reach_view};

use check_expressions::{Dimensions, Here, array_dimensions, within};
use check_nodes::{Extent, PartFault};
use pawn_arrays::Shape;
use pawn_base::{List, Memory};
use pawn_meaning::Slot;
use pawn_tree::{At, Dim};
use pawn_verdict::CheckFault;
use std::alloc::Global;

/// How far an array reaches, and what its sizes warn of.
#[derive(Drop)]
pub struct Reach {
    pub extent: Extent,
    pub warned: List<At>,
}

/// An array whose first size is given isn't too large.
#[tactic(auto, using(pawn_verdict::proofs::VerdictLaws::verdicts))]
fn reach_by(at: At, it: Dimensions) -> Result<Reach, CheckFault>
    ensures { Answers reach_view (spec.reach_by at (dimensions_view it) it.first) result }
{
    let (second, third) = (it.second, it.third);
    match it.first {
        None => Ok(Reach {
            extent: Extent {
                first: None,
                second,
                third,
            },
            warned: it.warned,
        }),
        Some(first) => {
            let shape = Shape {
                first,
                second,
                third,
            };
            let _within = within(at, shape)?;
            Ok(Reach {
                extent: Extent {
                    first: Some(first),
                    second,
                    third,
                },
                warned: it.warned,
            })
        }
    }
}

/// How far an array of these dimensions reaches, of which there is a first one.
///
/// # Errors
///
/// 55, 57 and 68 as the dimensions; 68 for more cells than any array has.
#[tactic(auto, using(crate::proofs::RuleLaws::afters))]
pub fn array_reach(alloc: Global, here: Here, dim: &Dim, dims: &[Dim]) -> Result<Reach, PartFault>
    ensures { PartAnswers reach_view (spec.reach (around_view here.entry.cx.now)
        (scope_view here.entry.scopes.now) here.entry.at (dim_view dim.now)
        (map dim_view dims.now)) result }
{
    let it = array_dimensions(alloc, here, dim, dims)?;
    Ok(reach_by(here.at, it)?)
}

/// With a further size, where there is one.
fn with_size(sizes: List<u32>, size: Option<u32>) -> Result<List<u32>, Memory>
    ensures { IfOk result (λ all. all ≡ sizes ++ option_to_list size) }
{
    let mut all = sizes;
    match size {
        None => Ok(all),
        Some(size) => {
            all.push(size)?;
            Ok(all)
        }
    }
}

/// The sizes behind the first one.
fn sizes_behind(alloc: Global, second: Option<u32>, third: Option<u32>) -> Result<List<u32>, Memory>
    ensures { IfOk result (λ all. all ≡ inner_sizes second third) }
{
    let mut all = List::new(alloc);
    match second {
        None => Ok(all),
        Some(second) => {
            all.push(second)?;
            with_size(all, third)
        }
    }
}

/// The slot of an array, whose first size may be open.
pub fn array_slot(alloc: Global, extent: Extent) -> Result<Slot, Memory>
    ensures { IfOk result (λ slot. slot_view slot
        ≡ spec.array_slot (extent_view extent) extent.first) }
{
    match extent.first {
        None => Ok(Slot::Open(sizes_behind(alloc, extent.second, extent.third)?)),
        Some(first) => Ok(Slot::Array(Shape {
            first,
            second: extent.second,
            third: extent.third,
        })),
    }
}
