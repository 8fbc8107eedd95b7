ghost use Rattle.std.specs.Prelude.{◌≡◌, map, option_map, IfOk, OnOk};
ghost use Rattle.pawn_tree.specs.View.{dim_view, expr_view, head_view as tree_view, param_view};
ghost use Rattle.types_rules.specs.VariableParts as parts;
ghost use Rattle.types_rules.specs.Params as spec;
ghost use Rattle.check_nodes.specs.PartAnswers.{Judged, PartAnswers};
ghost use Rattle.check_nodes.specs.ContextView.{around_view, head_view};
ghost use Rattle.check_nodes.specs.Scopes.{outer_of, scope_view};
ghost use Rattle.check_expressions.specs.JudgedView.{judged_view};
ghost use Rattle.check_heads.specs.HeadedView.{headed_view};
ghost use Rattle.check_heads.specs.ParamParts.{param_part};
ghost use Rattle.check_heads.specs.SoFar.{UnlessMemory};

use super::headed::Headed;
use super::meanings::declare_param;
use super::params::param_rule;
use super::passes::{Progress, all_parts, number_of, with_part};
use check_expressions::{judge_dims, judge_maybe};
use check_nodes::{Context, Head as Typed, PartFault, Scopes};
use pawn_base::Memory;
use pawn_tree::{At, Dim, Expr, Head, Param};
use std::alloc::Global;

// ---- the expressions in a head

/// The dimensions and the default of a parameter, as expressions.
#[tactic(auto, using(check_nodes::proofs::PartLaws::parts))]
fn judge_plain(
    alloc: Global,
    cx: &Context,
    scopes: &Scopes,
    dims: &[Dim],
    value: &Option<Expr>,
) -> Result<(), PartFault>
    ensures { PartAnswers judged_view (parts.with_part
        (parts.all_parts (parts.dim_part (around_view cx.now) (scope_view scopes.now))
        (map dim_view dims.now))
        (parts.maybe_judged (parts.expr_part (around_view cx.now) (scope_view scopes.now))
        (option_map expr_view value.now))) result }
{
    match judge_dims(alloc, cx, scopes, dims) {
        Ok(()) => judge_maybe(alloc, cx, scopes, value),
        Err(PartFault::Fallen) => {
            judge_maybe(alloc, cx, scopes, value)?;
            Err(PartFault::Fallen)
        }
        Err(fault) => Err(fault),
    }
}

/// The expressions in a parameter.
fn judge_param(alloc: Global, cx: &Context, scopes: &Scopes, param: &Param) -> Result<(), PartFault>
    ensures { PartAnswers judged_view (param_part (around_view cx.now) (scope_view scopes.now)
        (param_view param.now)) result }
{
    match param {
        Param::Plain { dims, value, .. } => {
            judge_plain(alloc, cx, scopes, dims.as_slice(), value)
        }
        Param::Rest(_, _) => Ok(()),
    }
}

/// The expressions in parameters, each of which is known to those behind it.
fn judge_params<'a>(
    alloc: Global,
    cx: &Context,
    scopes: &mut Scopes<'a>,
    at: At,
    params: &'a [Param],
) -> Result<(), PartFault>
    ensures verdict { PartAnswers judged_view (spec.params_parts (around_view cx.now) at
        (scope_view scopes.old) 0 (map param_view params.now)) result }
    ensures scope { Judged result (scope_view scopes.new ≡ spec.behind_params
        (around_view cx.now) at (scope_view scopes.old) 0 (map param_view params.now)) }
    ensures outer { UnlessMemory result (scopes.new.outer ≡ scopes.old.outer) }
{
    let mut fell = false;
    for i in 0..params.len() {
        let param = &params[i];
        let part = judge_param(alloc, cx, scopes, param);
        fell = with_part(fell, part)?;
        let number = number_of(i)?;
        declare_param(alloc, cx, scopes, at, number, param)?;
    }
    all_parts(fell)
}

/// The expressions in a head, in a block of its own that isn't left: the parameters are known in
/// it, as the body wants them.
///
/// # Errors
///
/// What breaks a rule in one of them, and `Fallen` where one names what doesn't stand. The block is
/// left open in each case but for want of memory.
pub fn judge_head<'a>(
    alloc: Global,
    cx: &Context,
    scopes: &mut Scopes<'a>,
    at: At,
    head: &'a Head,
) -> Result<(), PartFault>
    ensures verdict { PartAnswers judged_view (spec.head_parts (around_view cx.now) at
        (scope_view scopes.old) (tree_view head.now)) result }
    ensures scope { Judged result (scope_view scopes.new ≡ spec.in_body (around_view cx.now) at
        (scope_view scopes.old) (tree_view head.now)) }
    ensures outer { UnlessMemory result (outer_of scopes.new ≡ scopes.old) }
{
    scopes.enter()?;
    judge_params(alloc, cx, scopes, at, head.params.as_slice())
}

// ---- what a head is

/// Parameters, each of which is known to those behind it.
fn params_in<'a>(
    alloc: Global,
    cx: &Context,
    scopes: &mut Scopes<'a>,
    at: At,
    params: &'a [Param],
) -> Result<Headed, PartFault>
    ensures verdict { PartAnswers headed_view (spec.params (around_view cx.now) at
        (scope_view scopes.old) 0 (map param_view params.now)) result }
    ensures outer { UnlessMemory result (scopes.new.outer ≡ scopes.old.outer) }
{
    let mut so_far = Progress::nothing(alloc);
    for i in 0..params.len() {
        let param = &params[i];
        let it = param_rule(alloc, cx, scopes, at, param);
        so_far = so_far.then(it)?;
        let number = number_of(i)?;
        declare_param(alloc, cx, scopes, at, number, param)?;
    }
    so_far.all()
}

/// The parameters of a head, which stand in a block of their own (Language Guide, "Functions",
/// "Function arguments"). The scopes are as before but for want of memory.
///
/// # Errors
///
/// 51, 57, 58 and those of dimensions as the parameters; `Fallen` where one names what doesn't
/// stand.
pub fn head_rule<'a>(
    alloc: Global,
    cx: &Context,
    scopes: &mut Scopes<'a>,
    at: At,
    head: &'a Head,
) -> Result<Headed, PartFault>
    ensures verdict { PartAnswers headed_view (spec.head_rule (around_view cx.now) at
        (scope_view scopes.old) (tree_view head.now)) result }
    ensures scope { UnlessMemory result (scopes.new ≡ scopes.old) }
{
    scopes.enter()?;
    let result = params_in(alloc, cx, scopes, at, head.params.as_slice());
    scopes.leave();
    result
}

/// A head as calls see it, where it stands.
///
/// # Errors
///
/// `Memory` for want of memory.
#[tactic(auto, using(crate::proofs::MeaningLaws::head_falls))]
pub fn head_of<'a>(
    alloc: Global,
    cx: &Context,
    scopes: &mut Scopes<'a>,
    at: At,
    head: &'a Head,
) -> Result<Option<Typed>, Memory>
    ensures head { IfOk result (λ it. option_map head_view it ≡ spec.head_of (spec.head_rule
        (around_view cx.now) at (scope_view scopes.old) (tree_view head.now))) }
    ensures scope { OnOk result (scopes.new ≡ scopes.old) }
{
    match head_rule(alloc, cx, scopes, at, head) {
        Ok(it) => Ok(Some(Typed {
            params: it.params,
            rest: it.rest,
        })),
        Err(PartFault::Memory) => Err(Memory),
        Err(PartFault::Fallen) => Ok(None),
        Err(PartFault::Source { .. }) => Ok(None),
    }
}
