ghost use Rattle.std.specs.Prelude.{◌≡◌, None, Some, map, option_map, IfOk};
ghost use Rattle.pawn_tree.specs.declared.name.At.{At as Token};
ghost use Rattle.types_rules.specs.Switches as spec;
ghost use Rattle.pawn_verdict.specs.Answers.{Answers};
ghost use Rattle.check_nodes.specs.ContextView.{around_view};
ghost use Rattle.check_nodes.specs.TypedView.{typed_view};
ghost use Rattle.check_expressions.specs.ValueViews.{constant_view};
ghost use Rattle.check_switches.specs.CaseView.{ends_view, labels_view};
ghost use Rattle.check_switches.specs.Cased.{label_join};

use super::ends::Ends;
use check_expressions::{Constant, constant_rule, constant_warned};
use check_nodes::{Context, Typed};
use pawn_base::{List, Memory};
use pawn_tree::At;
use pawn_verdict::CheckFault;
use std::alloc::Global;

/// Ranges from a least to a greatest value, and what they warn of.
#[derive(Drop)]
pub struct Labels {
    pub ranges: List<(i32, i32)>,
    pub warned: List<At>,
}

/// A range of one value.
fn one_value(alloc: Global, cx: &Context, tag: u32, it: Constant) -> Result<Labels, Memory>
    ensures { IfOk result (λ x. (at : Token) → labels_view x ≡
        spec.one_value (around_view cx.now) at tag (constant_view it)) }
{
    let mut ranges = List::new(alloc);
    ranges.push((it.value, it.value))?;
    let warned = constant_warned(alloc, cx, tag, it)?;
    Ok(Labels { ranges, warned })
}

/// A range from one value to another.
fn two_values(
    alloc: Global,
    cx: &Context,
    tag: u32,
    first: Constant,
    last: Constant,
) -> Result<Labels, Memory>
    ensures { IfOk result (λ x. (at : Token) → labels_view x ≡
        spec.two_values (around_view cx.now) at tag (constant_view first) (constant_view last)) }
{
    let mut ranges = List::new(alloc);
    ranges.push((first.value, last.value))?;
    let mut warned = constant_warned(alloc, cx, tag, first)?;
    warned.append(constant_warned(alloc, cx, tag, last)?)?;
    Ok(Labels { ranges, warned })
}

/// A range of one value by its end, which is a constant.
#[tactic(auto, using(pawn_verdict::proofs::VerdictLaws::verdicts))]
fn single_label(
    alloc: Global,
    cx: &Context,
    at: At,
    tag: u32,
    first: Typed,
) -> Result<Labels, CheckFault>
    ensures { Answers labels_view
        (spec.label_by (around_view cx.now) at tag (typed_view first) None) result }
{
    let first = constant_rule(at, first)?;
    Ok(one_value(alloc, cx, tag, first)?)
}

/// A range by its two ends, which are constants.
#[tactic(auto, using(pawn_verdict::proofs::VerdictLaws::verdicts))]
fn double_label(
    alloc: Global,
    cx: &Context,
    at: At,
    tag: u32,
    first: Typed,
    last: Typed,
) -> Result<Labels, CheckFault>
    ensures { Answers labels_view (spec.label_by (around_view cx.now) at tag (typed_view first)
        (Some (typed_view last))) result }
{
    let first = constant_rule(at, first)?;
    let last = constant_rule(at, last)?;
    Ok(two_values(alloc, cx, tag, first, last)?)
}

/// A range by its ends, which are constants.
///
/// # Errors
///
/// 57 for what is no constant.
fn label_by(
    alloc: Global,
    cx: &Context,
    at: At,
    tag: u32,
    first: Typed,
    last: Option<Typed>,
) -> Result<Labels, CheckFault>
    ensures { Answers labels_view (spec.label_by (around_view cx.now) at tag (typed_view first)
        (option_map typed_view last)) result }
{
    match last {
        None => single_label(alloc, cx, at, tag, first),
        Some(last) => double_label(alloc, cx, at, tag, first, last),
    }
}

/// Ranges, and those behind them.
fn joined_labels(done: Labels, more: Labels) -> Result<Labels, Memory>
    ensures { IfOk result (λ all. labels_view all ≡
        label_join (labels_view done) (labels_view more)) }
{
    let Labels {
        mut ranges,
        mut warned,
    } = done;
    ranges.append(more.ranges)?;
    warned.append(more.warned)?;
    Ok(Labels { ranges, warned })
}

/// The values of a case (Language Guide, "Statements").
///
/// # Errors
///
/// 57 for what is no constant.
pub fn case_labels(
    alloc: Global,
    cx: &Context,
    at: At,
    tag: u32,
    ends: Vec<Ends>,
) -> Result<Labels, CheckFault>
    ensures { Answers labels_view
        (spec.labels (around_view cx.now) at tag (map ends_view ends.items)) result }
{
    let mut done = Labels {
        ranges: List::new(alloc),
        warned: List::new(alloc),
    };
    for it in ends {
        let label = label_by(alloc, cx, at, tag, it.first, it.last)?;
        done = joined_labels(done, label)?;
    }
    Ok(done)
}
