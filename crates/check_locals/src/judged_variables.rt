ghost use Rattle.std.specs.Prelude.{◌≡◌, map, IfOk};
ghost use Rattle.pawn_tree.specs.View.{var_view};
ghost use Rattle.types_rules.specs.VariableParts.{judged, var_part};
ghost use Rattle.types_rules.specs.Locals as spec;
ghost use Rattle.types_rules.specs.Points as points;
ghost use Rattle.check_nodes.specs.ContextView.{around_view};
ghost use Rattle.check_expressions.specs.JudgedView.{judged_view};
ghost use Rattle.check_locals.specs.PointView.{point_view};
ghost use Rattle.check_locals.specs.Rows.{joined};
ghost use Rattle.check_locals.specs.Tells.{Tells, told as plain_told};

use super::answers::told;
use super::declaring::{Declaring, Judging};
use super::means::declare_var;
use super::point::Point;
use check_expressions::judge_var;
use check_nodes::Context;
use pawn_tree::Var;
use pawn_verdict::CheckFault;
use std::alloc::Global;

/// Two parts that are judged: the whole falls where one of them falls.
pub fn judged_both(first: Option<()>, second: Option<()>) -> Option<()>
    ensures { plain_told judged_view result ≡ joined (λ x y. judged)
        (plain_told judged_view first) (plain_told judged_view second) }
{
    match first {
        None => None,
        Some(()) => second,
    }
}

/// The expressions in a variable.
fn judge(alloc: Global, cx: &Context, point: &Point, x: &Var) -> Result<Option<()>, CheckFault>
    ensures { Tells judged_view
        (var_part (around_view cx.now) (point_view point.now).scope (var_view x.now)) result }
{
    told(judge_var(alloc, cx, &point.scopes, x))
}

/// The expressions in variables, each judged behind the variables before it, which are declared so;
/// None where one falls.
///
/// # Errors
///
/// What breaks a rule in one of them.
pub fn judge_behind<'a>(here: &Declaring, point: &mut Point<'a>, vars: &'a [Var]) -> Judging
    ensures tells { Tells judged_view (spec.vars_parts (around_view here.now.cx.now)
        (point_view point.old) here.now.at here.now.kind here.now.constant
        (map var_view vars.now)) result }
    ensures behind { IfOk result (λ it. point_view point.new ≡
        points.behind_vars (around_view here.now.cx.now) (point_view point.old) here.now.at
        here.now.kind here.now.constant (map var_view vars.now)) }
{
    let mut done = Some(());
    for i in 0..vars.len() {
        let x = &vars[i];
        let it = judge(here.alloc, here.cx, point, x)?;
        declare_var(here, point, x)?;
        done = judged_both(done, it);
    }
    Ok(done)
}

/// The same, and the declarations are forgotten.
///
/// # Errors
///
/// What breaks a rule in one of them.
pub fn judge_vars<'a>(here: &Declaring, point: &mut Point<'a>, vars: &'a [Var]) -> Judging
    ensures tells { Tells judged_view (spec.vars_parts (around_view here.now.cx.now)
        (point_view point.old) here.now.at here.now.kind here.now.constant
        (map var_view vars.now)) result }
    ensures behind { IfOk result (λ it. point_view point.new ≡ point_view point.old) }
{
    let objects = point.objects;
    let slots = point.slots;
    let it = judge_behind(here, point, vars)?;
    point.forget(vars.len());
    point.objects = objects;
    point.slots = slots;
    Ok(it)
}
