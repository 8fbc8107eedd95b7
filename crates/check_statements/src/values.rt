ghost use Rattle.std.specs.Prelude.{◌≡◌, ◌+◌, option_map, Some, IfOk};
ghost use Rattle.names_rules.specs.Verdict.{Stands, after};
ghost use Rattle.pawn_tree.specs.View.{expr_view};
ghost use Rattle.types_rules.specs.Expressions as expressions;
ghost use Rattle.types_rules.specs.Literals.{literals};
ghost use Rattle.types_rules.specs.Counts.{literals_of};
ghost use Rattle.types_rules.specs.Points.{beyond};
ghost use Rattle.types_rules.specs.Statements as spec;
ghost use Rattle.check_nodes.specs.ContextView.{around_view};
ghost use Rattle.check_nodes.specs.TypedView.{typed_view};
ghost use Rattle.check_nodes.specs.Scopes.{scope_view};
ghost use Rattle.check_locals.specs.PointView.{point_view};
ghost use Rattle.check_locals.specs.Tells.{Tells, told as plain_told};
ghost use Rattle.check_locals.specs.StoodView.{maybe_view, used_view};
ghost use Rattle.check_statements.specs.SimpleJudging.{maybe_part_in, part_in};
ghost use Rattle.check_statements.specs.SimpleJudging.{perhaps_in, value_in};
ghost use Rattle.check_statements.specs.SimpleJudging.{value_or_zero_in};

use super::setting::Setting;
use check_expressions::expr;
use check_locals::{Maybe, Point, Used, told, use_at, zero_used};
use check_nodes::{Scopes, Typed};
use pawn_tree::{At, Expr};
use pawn_verdict::CheckFault;

/// An expression, told.
fn told_expr(
    setting: &Setting,
    scopes: &Scopes,
    objects: &mut u32,
    e: &Expr,
) -> Result<Option<Typed>, CheckFault>
    ensures tells { Tells typed_view (expressions.expr (around_view setting.now.cx.now)
        (scope_view scopes.now) objects.old (expr_view e.now)) result }
    ensures behind { IfOk result (λ it. objects.new ≡ objects.old + literals (expr_view e.now)) }
{
    told(expr(setting.alloc, setting.cx, scopes, objects, e))
}

/// A part of a statement; None where it falls.
///
/// # Errors
///
/// What breaks a rule in it.
pub fn part(setting: &Setting, point: &mut Point, e: &Expr) -> Result<Option<Typed>, CheckFault>
    ensures tells { Tells typed_view
        (part_in setting.now (point_view point.old) (expr_view e.now)) result }
    ensures behind { IfOk result (λ it. point_view point.new ≡
        beyond (point_view point.old) (literals (expr_view e.now)) 0) }
{
    let mut objects = point.objects;
    let it = told_expr(setting, &point.scopes, &mut objects, e)?;
    point.objects = objects;
    Ok(it)
}

/// A part that is there, told.
fn there(it: Option<Typed>) -> Option<Option<Typed>>
    ensures { plain_told (option_map typed_view) result ≡
        after (plain_told typed_view it) (λ x. Stands (Some x)) }
{
    match it {
        None => None,
        Some(it) => Some(Some(it)),
    }
}

/// A part that may be absent.
///
/// # Errors
///
/// What breaks a rule in it.
pub fn maybe_part(
    setting: &Setting,
    point: &mut Point,
    e: &Option<Expr>,
) -> Result<Option<Option<Typed>>, CheckFault>
    ensures tells { Tells (option_map typed_view)
        (maybe_part_in setting.now (point_view point.old) (option_map expr_view e.now)) result }
    ensures behind { IfOk result (λ it. point_view point.new ≡
        beyond (point_view point.old) (literals_of (option_map expr_view e.now)) 0) }
{
    match e {
        None => Ok(Some(None)),
        Some(e) => {
            let it = part(setting, point, e)?;
            Ok(there(it))
        }
    }
}

/// A part that gives one cell.
///
/// # Errors
///
/// 54 for an array, and what breaks a rule in it.
#[tactic(auto, using(check_locals::proofs::ToldLaws::parts))]
pub fn value(
    setting: &Setting,
    point: &mut Point,
    at: At,
    e: &Expr,
) -> Result<Option<Used>, CheckFault>
    ensures tells { Tells used_view
        (value_in setting.now (point_view point.old) at (expr_view e.now)) result }
    ensures behind { IfOk result (λ it. point_view point.new ≡
        beyond (point_view point.old) (literals (expr_view e.now)) 0) }
{
    let it = part(setting, point, e)?;
    let Some(it) = it else {
        return Ok(None);
    };
    Ok(Some(use_at(setting.alloc, at, it)?))
}

/// One cell, or 0 where none stands.
///
/// # Errors
///
/// 54 for an array, and what breaks a rule in it.
pub fn value_or_zero(
    setting: &Setting,
    point: &mut Point,
    at: At,
    e: &Option<Expr>,
) -> Result<Option<Used>, CheckFault>
    ensures tells { Tells used_view
        (value_or_zero_in setting.now (point_view point.old) at
        (option_map expr_view e.now)) result }
    ensures behind { IfOk result (λ it. point_view point.new ≡
        beyond (point_view point.old) (literals_of (option_map expr_view e.now)) 0) }
{
    match e {
        None => Ok(Some(zero_used(setting.alloc, at)?)),
        Some(e) => value(setting, point, at, e),
    }
}

/// A value that is there, told.
fn present(it: Option<Used>) -> Option<Maybe>
    ensures { plain_told maybe_view result ≡
        after (plain_told used_view it) (λ x. Stands (spec.present x)) }
{
    match it {
        None => None,
        Some(it) => Some(Maybe::present(it)),
    }
}

/// One cell, or none.
///
/// # Errors
///
/// 54 for an array, and what breaks a rule in it.
pub fn perhaps(
    setting: &Setting,
    point: &mut Point,
    at: At,
    e: &Option<Expr>,
) -> Result<Option<Maybe>, CheckFault>
    ensures tells { Tells maybe_view
        (perhaps_in setting.now (point_view point.old) at (option_map expr_view e.now)) result }
    ensures behind { IfOk result (λ it. point_view point.new ≡
        beyond (point_view point.old) (literals_of (option_map expr_view e.now)) 0) }
{
    match e {
        None => Ok(Some(Maybe::absent(setting.alloc))),
        Some(e) => {
            let it = value(setting, point, at, e)?;
            Ok(present(it))
        }
    }
}
