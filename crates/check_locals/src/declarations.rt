ghost use Rattle.std.specs.Prelude.{◌≡◌, [], map, IfOk};
ghost use Rattle.pawn_tree.specs.View.{constant_view, expr_view, var_view};
ghost use Rattle.types_rules.specs.Constants as constants;
ghost use Rattle.types_rules.specs.Locals as spec;
ghost use Rattle.types_rules.specs.Points as points;
ghost use Rattle.types_rules.specs.Stood.{stood, stood_behind};
ghost use Rattle.pawn_verdict.specs.Answers.{Answers};
ghost use Rattle.check_nodes.specs.ContextView.{around_view};
ghost use Rattle.check_nodes.specs.Scopes.{scope_view};
ghost use Rattle.check_expressions.specs.ValueViews.{constant_view as value_view};
ghost use Rattle.check_locals.specs.StoodView.{stood_view};
ghost use Rattle.check_locals.specs.PointView.{point_view};
ghost use Rattle.check_locals.specs.Rows.{joined};
ghost use Rattle.check_locals.specs.Tells.{Tells, told as plain_told};

use super::answers::told;
use super::cells::local_by;
use super::declaring::{Declaring, Outcome};
use super::judged_variables::judge_vars;
use super::means::{declare_var, tag_of};
use super::point::Point;
use super::stood::Stood;
use check_expressions::{Constant as Value, constant_value, constant_warned};
use check_nodes::{Context, Made, Meaning, Scopes, Sight};
use pawn_base::{List, Memory};
use pawn_tree::{At, Constant, Expr, Var, Variables};
use pawn_verdict::{CheckFault, broken};
use std::alloc::Global;
use types_rules::REDEFINED;

/// A name that its block doesn't have yet.
///
/// # Errors
///
/// 51 where the block has it.
pub fn fresh_name(scopes: &Scopes, at: At, name: &[u8]) -> Result<(), CheckFault>
    ensures { Answers spec.fresh_view (spec.fresh_name (scope_view scopes.now) at name.now) result }
{
    match scopes.find_here(name) {
        None => Ok(()),
        Some(_) => Err(broken(REDEFINED, at.place)),
    }
}

/// A variable of a block.
#[tactic(auto, using(crate::proofs::ToldLaws::parts))]
fn local(here: &Declaring, point: &Point, x: &Var) -> Outcome
    ensures { Tells stood_view (spec.local (around_view here.now.cx.now)
        (point_view point.now) here.now.at here.now.kind here.now.constant
        (var_view x.now)) result }
{
    let it = local_by(here, point, x)?;
    let Some(it) = it else {
        return Ok(None);
    };
    fresh_name(&point.scopes, here.at, x.name.bytes.as_slice())?;
    Ok(Some(it))
}

/// Statements, and those behind them: the whole falls where one of them falls.
pub fn then_maybe(
    alloc: Global,
    done: Option<Stood>,
    more: Option<Stood>,
) -> Result<Option<Stood>, Memory>
    ensures { IfOk result (λ both. plain_told stood_view both ≡ joined stood_behind
        (plain_told stood_view done) (plain_told stood_view more)) }
{
    let Some(done) = done else {
        return Ok(None);
    };
    let Some(more) = more else {
        return Ok(None);
    };
    Ok(Some(done.then(alloc, more)?))
}

/// Variables that are declared together: each is known behind its own value.
///
/// # Errors
///
/// 51 for a name that the block has, and 53, 54, 55, 57, 68 as sizes and first values.
pub fn locals<'a>(here: &Declaring, point: &mut Point<'a>, vars: &'a [Var]) -> Outcome
    ensures tells { Tells stood_view (spec.locals (around_view here.now.cx.now)
        (point_view point.old) here.now.at here.now.kind here.now.constant
        (map var_view vars.now)) result }
    ensures behind { IfOk result (λ it. point_view point.new ≡
        points.behind_vars (around_view here.now.cx.now) (point_view point.old) here.now.at
        here.now.kind here.now.constant (map var_view vars.now)) }
{
    let none = Stood::nothing(here.alloc)?;
    let mut done = Some(none);
    for i in 0..vars.len() {
        let x = &vars[i];
        let it = local(here, point, x)?;
        declare_var(here, point, x)?;
        done = then_maybe(here.alloc, done, it)?;
    }
    Ok(done)
}

/// Variables of a block, judged where the expressions in them have no fault (Language Guide,
/// "Declarations"); None where they fall.
///
/// # Errors
///
/// What breaks a rule in an expression of theirs; 51 for a name that the block has, and 53, 54, 55,
/// 57, 68 as sizes and first values.
#[tactic(auto, using(crate::proofs::ToldLaws::parts))]
pub fn local_vars<'a>(
    alloc: Global,
    cx: &Context,
    point: &mut Point<'a>,
    at: At,
    it: &'a Variables,
) -> Outcome
    ensures tells { Tells stood_view (spec.local_vars (around_view cx.now) (point_view point.old) at
        it.now.storage it.now.constant (map var_view it.now.vars)) result }
    ensures behind { IfOk result (λ x. point_view point.new ≡
        points.behind_vars (around_view cx.now) (point_view point.old) at
        it.now.storage it.now.constant (map var_view it.now.vars)) }
{
    let vars = it.vars.as_slice();
    let here = Declaring {
        alloc,
        cx,
        at,
        kind: it.storage,
        constant: it.constant,
    };
    judge_vars(&here, point, vars)?;
    locals(&here, point, vars)
}

// ---- constants

/// The value of a constant expression; None where it falls.
///
/// # Errors
///
/// 57 for what is no constant, and what breaks a rule in it.
pub fn told_constant(
    alloc: Global,
    cx: &Context,
    point: &Point,
    at: At,
    e: &Expr,
) -> Result<Option<Value>, CheckFault>
    ensures { Tells value_view (constants.constant (around_view cx.now)
        (point_view point.now).scope at (expr_view e.now)) result }
{
    told(constant_value(alloc, cx, &point.scopes, at, e))
}

/// What a constant that stands makes: warnings alone.
fn constant_stood(alloc: Global, cx: &Context, tag: u32, x: Value) -> Result<Stood, Memory>
    ensures { IfOk result (λ it. stood_view it ≡ stood [] []
        (constants.constant_warned (around_view cx.now) tag (value_view x))) }
{
    let warned = constant_warned(alloc, cx, tag, x)?;
    let made = Made {
        literals: List::new(alloc),
        warned,
    };
    Stood::bare(alloc, made)
}

/// A constant of a block, which leaves no statement; None where it falls.
///
/// # Errors
///
/// 51 for a name that the block has, 57 for what is no constant, and what breaks a rule in its
/// value.
pub fn local_constant<'a>(
    alloc: Global,
    cx: &Context,
    point: &mut Point<'a>,
    at: At,
    it: &'a Constant,
) -> Outcome
    ensures tells { Tells stood_view
        (spec.local_constant (around_view cx.now) (point_view point.old)
        at (constant_view it.now)) result }
    ensures behind { IfOk result (λ x. point_view point.new ≡
        points.behind_constant (around_view cx.now) (point_view point.old) at
        (constant_view it.now)) }
{
    let name = it.name.bytes.as_slice();
    let tag = tag_of(cx, &it.tag);
    let x = told_constant(alloc, cx, point, at, &it.value)?;
    let Some(x) = x else {
        point.declare(name, Sight::Unknown)?;
        return Ok(None);
    };
    fresh_name(&point.scopes, at, name)?;
    point.declare(name, Sight::Means(Meaning::Constant(x.value, tag)))?;
    Ok(Some(constant_stood(alloc, cx, tag, x)?))
}
