ghost use Rattle.std.specs.Prelude.{◌≡◌, map, option_map};
ghost use Rattle.names_rules.specs.Verdict.{Verdict};
ghost use Rattle.pawn_tree.specs.Variables.{inits};
ghost use Rattle.pawn_tree.specs.View.{dim_view, expr_view, init_view, var_view};
ghost use Rattle.types_rules.specs.VariableParts as spec;
ghost use Rattle.check_nodes.specs.PartAnswers.{PartAnswers};
ghost use Rattle.check_nodes.specs.ContextView.{around_view};
ghost use Rattle.check_nodes.specs.Scopes.{scope_view};
ghost use Rattle.check_expressions.specs.Beside.{all_by, beside_by};
ghost use Rattle.check_expressions.specs.JudgedView.{judged_view};

use super::expression::expr;
use check_nodes::{Context, PartFault, Scopes};
use pawn_base::List;
use pawn_tree::{Dim, Expr, Init, Var};
use std::alloc::Global;

// ---- parts one behind another

/// Whether all parts so far stand, and the next one too: those behind one that falls are judged all
/// the same.
///
/// # Errors
///
/// What breaks a rule in the next part.
fn beside(stand: bool, next: Result<(), PartFault>) -> Result<bool, PartFault>
    ensures { (v : Verdict spec.Judged) → PartAnswers judged_view v next
        → PartAnswers (λ it. it) (beside_by stand v) result }
{
    match next {
        Ok(()) => Ok(stand),
        Err(PartFault::Fallen) => Ok(false),
        Err(PartFault::Source { kind, place }) => Err(PartFault::Source { kind, place }),
        Err(PartFault::Memory) => Err(PartFault::Memory),
    }
}

/// All parts, where none has fallen.
fn all_stand(stand: bool) -> Result<(), PartFault>
    ensures { PartAnswers judged_view (all_by stand) result }
{
    if stand {
        Ok(())
    } else {
        Err(PartFault::Fallen)
    }
}

// ---- expressions

/// Whether an expression stands where nothing is asked of its value.
///
/// # Errors
///
/// What breaks a rule in it.
#[tactic(auto, using(check_nodes::proofs::PartLaws::parts))]
pub fn judge_expr(alloc: Global, cx: &Context, scopes: &Scopes, e: &Expr) -> Result<(), PartFault>
    ensures { PartAnswers judged_view (spec.expr_part (around_view cx.now) (scope_view scopes.now)
        (expr_view e.now)) result }
{
    let mut objects = 0;
    let _typed = expr(alloc, cx, scopes, &mut objects, e)?;
    Ok(())
}

/// The same of an expression that may be left out.
///
/// # Errors
///
/// What breaks a rule in it.
pub fn judge_maybe(
    alloc: Global,
    cx: &Context,
    scopes: &Scopes,
    e: &Option<Expr>,
) -> Result<(), PartFault>
    ensures { PartAnswers judged_view (spec.maybe_judged
        (spec.expr_part (around_view cx.now) (scope_view scopes.now))
        (option_map expr_view e.now)) result }
{
    match e {
        None => Ok(()),
        Some(e) => judge_expr(alloc, cx, scopes, e),
    }
}

// ---- sizes

fn judge_dim(alloc: Global, cx: &Context, scopes: &Scopes, dim: &Dim) -> Result<(), PartFault>
    ensures { PartAnswers judged_view (spec.dim_part (around_view cx.now) (scope_view scopes.now)
        (dim_view dim.now)) result }
{
    match dim {
        Dim::Open => Ok(()),
        Dim::Cells(e) => judge_expr(alloc, cx, scopes, e),
        Dim::Chars(e) => judge_expr(alloc, cx, scopes, e),
    }
}

/// The sizes of a variable or of a parameter, as expressions.
///
/// # Errors
///
/// What breaks a rule in one of them.
pub fn judge_dims(
    alloc: Global,
    cx: &Context,
    scopes: &Scopes,
    dims: &[Dim],
) -> Result<(), PartFault>
    ensures { PartAnswers judged_view (spec.all_parts
        (spec.dim_part (around_view cx.now) (scope_view scopes.now)) (map dim_view dims.now))
        result }
{
    let mut stand = true;
    for i in 0..dims.len() {
        let part = judge_dim(alloc, cx, scopes, &dims[i]);
        stand = beside(stand, part)?;
    }
    all_stand(stand)
}

// ---- values

#[cycle(values)]
fn judge_init(alloc: Global, cx: &Context, scopes: &Scopes, init: &Init) -> Result<(), PartFault>
    ensures { PartAnswers judged_view (spec.init_part (around_view cx.now) (scope_view scopes.now)
        (init_view init.now)) result }
{
    match init {
        Init::Value(e) => judge_expr(alloc, cx, scopes, e),
        Init::Braces(_, list, _) => judge_inits(alloc, cx, scopes, list),
    }
}

#[cycle(values)]
fn judge_inits(
    alloc: Global,
    cx: &Context,
    scopes: &Scopes,
    list: &List<Init>,
) -> Result<(), PartFault>
    ensures { PartAnswers judged_view (spec.init_parts (around_view cx.now) (scope_view scopes.now)
        (inits (map init_view list.now))) result }
{
    let items = list.as_slice();
    let mut stand = true;
    for i in 0..items.len() {
        let part = judge_init(alloc, cx, scopes, &items[i]);
        stand = beside(stand, part)?;
    }
    all_stand(stand)
}

fn judge_value(
    alloc: Global,
    cx: &Context,
    scopes: &Scopes,
    init: &Option<Init>,
) -> Result<(), PartFault>
    ensures { PartAnswers judged_view (spec.maybe_judged
        (spec.init_part (around_view cx.now) (scope_view scopes.now))
        (option_map init_view init.now)) result }
{
    match init {
        None => Ok(()),
        Some(init) => judge_init(alloc, cx, scopes, init),
    }
}

/// The sizes and values of a variable, as expressions. It is judged as a declaration only where
/// they have no fault.
///
/// # Errors
///
/// What breaks a rule in one of them.
#[tactic(auto, using(check_nodes::proofs::PartLaws::parts))]
pub fn judge_var(alloc: Global, cx: &Context, scopes: &Scopes, x: &Var) -> Result<(), PartFault>
    ensures { PartAnswers judged_view (spec.var_part (around_view cx.now) (scope_view scopes.now)
        (var_view x.now)) result }
{
    match judge_dims(alloc, cx, scopes, x.dims.as_slice()) {
        Ok(()) => judge_value(alloc, cx, scopes, &x.init),
        Err(PartFault::Fallen) => {
            judge_value(alloc, cx, scopes, &x.init)?;
            Err(PartFault::Fallen)
        }
        Err(PartFault::Source { kind, place }) => Err(PartFault::Source { kind, place }),
        Err(PartFault::Memory) => Err(PartFault::Memory),
    }
}
