ghost use Rattle.std.specs.Prelude.{◌≡◌, ◌∷◌, [], ◌++◌, map, option_map, IfOk};
ghost use Rattle.names_rules.specs.Verdict.{Stands, both};
ghost use Rattle.pawn_tree.specs.View.{expr_view, range_view};
ghost use Rattle.types_rules.specs.Rule.{each};
ghost use Rattle.types_rules.specs.Expressions as expressions;
ghost use Rattle.types_rules.specs.Switches as spec;
ghost use Rattle.check_nodes.specs.ContextView.{around_view};
ghost use Rattle.check_nodes.specs.TypedView.{typed_view};
ghost use Rattle.check_nodes.specs.Scopes.{scope_view};
ghost use Rattle.check_locals.specs.Tells.{Tells, told as plain_told};
ghost use Rattle.check_switches.specs.CaseView.{all_ends_view, ends_view};

use check_expressions::expr;
use check_locals::told;
use check_nodes::{Context, Scopes, Typed};
use pawn_base::Memory;
use pawn_tree::{Expr, Range};
use pawn_verdict::CheckFault;
use std::alloc::Global;

/// The ends of a range: a single value has one.
#[derive(Drop)]
pub struct Ends {
    pub first: Typed,
    pub last: Option<Typed>,
}

/// The ends of all ranges of a case, in order.
#[derive(Drop)]
pub struct AllEnds {
    pub items: Vec<Ends>,
}

/// An end, in which no literal is counted.
fn end(alloc: Global, cx: &Context, scopes: &Scopes, e: &Expr) -> Result<Option<Typed>, CheckFault>
    ensures { Tells typed_view
        (expressions.expr (around_view cx.now) (scope_view scopes.now) 0 (expr_view e.now)) result }
{
    let mut objects = 0;
    told(expr(alloc, cx, scopes, &mut objects, e))
}

/// A last end, where there is one.
#[tactic(auto, using(check_locals::proofs::ToldLaws::parts))]
fn last_end(
    alloc: Global,
    cx: &Context,
    scopes: &Scopes,
    e: &Option<Expr>,
) -> Result<Option<Option<Typed>>, CheckFault>
    ensures { Tells (option_map typed_view) (spec.last_part (around_view cx.now)
        (scope_view scopes.now) (option_map expr_view e.now)) result }
{
    let Some(e) = e else {
        return Ok(Some(None));
    };
    let it = end(alloc, cx, scopes, e)?;
    let Some(it) = it else {
        return Ok(None);
    };
    Ok(Some(Some(it)))
}

/// The ends of a range by its parts, which stand or fall.
fn ends_told(first: Option<Typed>, last: Option<Option<Typed>>) -> Option<Ends>
    ensures { plain_told ends_view result ≡ both (plain_told typed_view first)
        (plain_told (option_map typed_view) last)
        (λ x y. Stands (record { first = x; last = y })) }
{
    match first {
        None => None,
        Some(first) => match last {
            None => None,
            Some(last) => Some(Ends { first, last }),
        },
    }
}

/// The ends of a range; None where it falls.
fn ends_of(
    alloc: Global,
    cx: &Context,
    scopes: &Scopes,
    range: &Range,
) -> Result<Option<Ends>, CheckFault>
    ensures { Tells ends_view
        (spec.ends (around_view cx.now) (scope_view scopes.now) (range_view range.now)) result }
{
    let first = end(alloc, cx, scopes, &range.first)?;
    let last = last_end(alloc, cx, scopes, &range.last)?;
    Ok(ends_told(first, last))
}

/// Ranges, and one behind them: all fall where one of them falls.
fn with_ends(done: Option<AllEnds>, it: Option<Ends>) -> Result<Option<AllEnds>, Memory>
    ensures { IfOk result (λ all. plain_told all_ends_view all ≡
        both (plain_told all_ends_view done) (plain_told ends_view it)
        (λ xs x. Stands (xs ++ x ∷ []))) }
{
    let Some(mut done) = done else {
        return Ok(None);
    };
    let Some(it) = it else {
        return Ok(None);
    };
    done.items.push(it)?;
    Ok(Some(done))
}

/// The ends of all ranges of a case; None where one of them falls.
///
/// # Errors
///
/// What breaks a rule in one of them.
pub fn all_ends(
    alloc: Global,
    cx: &Context,
    scopes: &Scopes,
    ranges: &[Range],
) -> Result<Option<AllEnds>, CheckFault>
    ensures { Tells all_ends_view
        (each (spec.ends (around_view cx.now) (scope_view scopes.now))
        (map range_view ranges.now)) result }
{
    let mut done = Some(AllEnds {
        items: Vec::new(alloc),
    });
    for i in 0..ranges.len() {
        let it = ends_of(alloc, cx, scopes, &ranges[i])?;
        done = with_ends(done, it)?;
    }
    Ok(done)
}
