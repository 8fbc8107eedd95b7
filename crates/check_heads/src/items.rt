ghost use Rattle.std.specs.Prelude.{◌≡◌, ◌+◌, map, option_map, pos, IfOk, OnOk};
ghost use Rattle.pawn_cells.specs.Cells.{add};
ghost use Rattle.names_rules.specs.Verdict.{Stands, after};
ghost use Rattle.pawn_tree.specs.View.{expr_view, item_view};
ghost use Rattle.types_rules.specs.Enums as spec;
ghost use Rattle.types_rules.specs.Constants.{constant};
ghost use Rattle.check_nodes.specs.PartAnswers.{PartAnswers};
ghost use Rattle.check_nodes.specs.ContextView.{around_view};
ghost use Rattle.check_nodes.specs.Scopes.{scope_view, sight_view, without};
ghost use Rattle.check_heads.specs.Counting.{counted, item_warned, value_in};

use super::meanings::declare_sight;
use check_expressions::constant_value;
use check_nodes::{Context, Meaning, PartFault, Scopes, Sight};
use pawn_base::{List, Memory};
use pawn_cells::Cell;
use pawn_tree::{At, Expr, Item};
use std::alloc::Global;

// ---- the value of a constant

/// The value that a constant is given, where it stands.
#[tactic(auto, using(crate::proofs::ItemLaws::no_value))]
fn value_given(
    alloc: Global,
    cx: &Context,
    scopes: &Scopes,
    at: At,
    e: &Expr,
) -> Result<Option<i32>, Memory>
    ensures { IfOk result (λ value. value ≡ spec.value_of
        (constant (around_view cx.now) (scope_view scopes.now) at (expr_view e.now))) }
{
    match constant_value(alloc, cx, scopes, at, e) {
        Ok(it) => Ok(Some(it.value)),
        Err(PartFault::Memory) => Err(Memory),
        Err(PartFault::Fallen) => Ok(None),
        Err(PartFault::Source { .. }) => Ok(None),
    }
}

/// The value of a constant: its own, else the next one.
fn item_value(
    alloc: Global,
    cx: &Context,
    scopes: &Scopes,
    at: At,
    next: Option<i32>,
    value: &Option<Expr>,
) -> Result<Option<i32>, Memory>
    ensures { IfOk result (λ it. it ≡ value_in (around_view cx.now) (scope_view scopes.now) at next
        (option_map expr_view value.now)) }
{
    match value {
        None => Ok(next),
        Some(e) => value_given(alloc, cx, scopes, at, e),
    }
}

/// The value behind another one.
fn value_behind(value: Option<i32>) -> Option<i32>
    ensures { result ≡ option_map (λ it. add it (pos 1)) value }
{
    match value {
        None => None,
        Some(it) => Some(Cell(it).add(Cell(1)).0),
    }
}

/// What a value of a tag means, where it is known.
pub fn value_means(tag: u32, value: Option<i32>) -> Sight
    ensures { sight_view result ≡ spec.means_value tag value }
{
    match value {
        None => Sight::Unknown,
        Some(it) => Sight::Means(Meaning::Constant(it, tag)),
    }
}

/// A constant is declared; gives the value of the one behind it, where that is known.
pub fn declare_item<'a>(
    alloc: Global,
    cx: &Context,
    scopes: &mut Scopes<'a>,
    at: At,
    tag: u32,
    next: Option<i32>,
    item: &'a Item,
) -> Result<Option<i32>, Memory>
    ensures scope { IfOk result (λ more. counted (scope_view scopes.new) more ≡ spec.behind_item
        (around_view cx.now) at tag (counted (scope_view scopes.old) next) (item_view item.now)) }
    ensures one { OnOk result (without 1 scopes.new ≡ scopes.old) }
{
    let value = item_value(alloc, cx, scopes, at, next, &item.value)?;
    let means = value_means(tag, value);
    declare_sight(scopes, item.name.bytes.as_slice(), means)?;
    Ok(value_behind(value))
}

// ---- what a constant warns of

/// A constant that is given.
#[tactic(auto, using(check_nodes::proofs::PartLaws::parts))]
fn given_rule(
    alloc: Global,
    cx: &Context,
    scopes: &Scopes,
    at: At,
    e: &Expr,
) -> Result<List<At>, PartFault>
    ensures { PartAnswers (λ warned. warned) (after
        (constant (around_view cx.now) (scope_view scopes.now) at (expr_view e.now))
        (λ it. Stands it.warned)) result }
{
    let it = constant_value(alloc, cx, scopes, at, e)?;
    Ok(it.warned)
}

/// What the value of a constant warns of, which isn't tested itself.
///
/// # Errors
///
/// 57 for what is no constant.
pub fn item_rule(
    alloc: Global,
    cx: &Context,
    scopes: &Scopes,
    at: At,
    value: &Option<Expr>,
) -> Result<List<At>, PartFault>
    ensures { PartAnswers (λ warned. warned) (item_warned (around_view cx.now)
        (scope_view scopes.now) at (option_map expr_view value.now)) result }
{
    match value {
        None => Ok(List::new(alloc)),
        Some(e) => given_rule(alloc, cx, scopes, at, e),
    }
}
