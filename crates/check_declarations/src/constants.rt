ghost use Rattle.std.specs.Prelude.{◌≡◌, IfOk, OnOk};
ghost use Rattle.names_rules.specs.Verdict.{Stands, after};
ghost use Rattle.pawn_tree.specs.View.{constant_view, expr_view};
ghost use Rattle.types_rules.specs.Constants as constants;
ghost use Rattle.types_rules.specs.Points as points;
ghost use Rattle.types_rules.specs.Declarations as spec;
ghost use Rattle.check_nodes.specs.ContextView.{around_view};
ghost use Rattle.check_nodes.specs.Scopes.{sight_view};
ghost use Rattle.check_expressions.specs.ValueViews.{constant_view as value_view};
ghost use Rattle.check_locals.specs.PointView.{point_view};
ghost use Rattle.check_locals.specs.Tells.{Tells, told as plain_told};
ghost use Rattle.check_declarations.specs.DoneView.{done_view};
ghost use Rattle.check_declarations.specs.KnownView.{source_view};

use super::done_declarations::Done;
use super::known::Known;
use check_expressions::{Constant as Value, constant_value, constant_warned};
use check_locals::{Point, tag_of, told_constant};
use check_nodes::{Context, Meaning, PartFault, Sight};
use pawn_base::Memory;
use pawn_tree::{At, Constant, Expr};
use pawn_verdict::CheckFault;
use std::alloc::Global;

/// What a constant with a value means, where that stands.
fn value_means(tag: u32, value: &Option<Value>) -> Sight
    ensures { sight_view result
        ≡ points.constant_means tag (plain_told value_view value.now) }
{
    match value {
        None => Sight::Unknown,
        Some(it) => Sight::Means(Meaning::Constant(it.value, tag)),
    }
}

/// What a constant of a value warns of, where that stands.
fn constant_done(
    alloc: Global,
    cx: &Context,
    tag: u32,
    value: Option<Value>,
) -> Result<Option<Done>, Memory>
    ensures { IfOk result (λ it. plain_told done_view it ≡ after (plain_told value_view value)
        (λ x. Stands (spec.warning (constants.constant_warned (around_view cx.now) tag x)))) }
{
    match value {
        None => Ok(None),
        Some(x) => {
            let warned = constant_warned(alloc, cx, tag, x)?;
            Ok(Some(Done::warning(alloc, warned)))
        }
    }
}

/// A constant of the file, which stays declared; None where it falls.
///
/// # Errors
///
/// 57 for what is no constant, and what breaks a rule in its value.
pub fn constant_rule<'a>(
    known: &Known,
    point: &mut Point<'a>,
    at: At,
    it: &'a Constant,
) -> Result<Option<Done>, CheckFault>
    ensures tells { Tells done_view (spec.global_constant (source_view known.now)
        (around_view known.now.cx.now) (point_view point.old) at (constant_view it.now)) result }
    ensures behind { IfOk result (λ done. point_view point.new ≡ points.behind_constant
        (around_view known.now.cx.now) (point_view point.old) at (constant_view it.now)) }
{
    let tag = tag_of(known.cx, &it.tag);
    let value = told_constant(known.alloc, known.cx, point, at, &it.value)?;
    point.declare(it.name.bytes.as_slice(), value_means(tag, &value))?;
    Ok(constant_done(known.alloc, known.cx, tag, value)?)
}

/// What a constant means, whether it stands or not.
fn constant_means(
    alloc: Global,
    cx: &Context,
    point: &Point,
    at: At,
    tag: u32,
    e: &Expr,
) -> Result<Sight, Memory>
    ensures { IfOk result (λ means. sight_view means ≡ points.constant_means tag
        (constants.constant (around_view cx.now) (point_view point.now).scope at
        (expr_view e.now))) }
{
    match constant_value(alloc, cx, &point.scopes, at, e) {
        Ok(it) => Ok(Sight::Means(Meaning::Constant(it.value, tag))),
        Err(PartFault::Memory) => Err(Memory),
        Err(PartFault::Fallen) => Ok(Sight::Unknown),
        Err(PartFault::Source { .. }) => Ok(Sight::Unknown),
    }
}

/// A constant of the file is declared, whether it stands or not.
///
/// # Errors
///
/// `Memory` for want of memory.
pub fn declare_constant<'a>(
    alloc: Global,
    cx: &Context,
    point: &mut Point<'a>,
    at: At,
    it: &'a Constant,
) -> Result<(), Memory>
    ensures { OnOk result (point_view point.new ≡ points.behind_constant (around_view cx.now)
        (point_view point.old) at (constant_view it.now)) }
{
    let tag = tag_of(cx, &it.tag);
    let means = constant_means(alloc, cx, point, at, tag, &it.value)?;
    point.declare(it.name.bytes.as_slice(), means)
}
