ghost use Rattle.std.specs.Prelude.{◌≡◌};
ghost use Rattle.pawn_meaning.specs.View.{expr_view, scalar_view};
ghost use Rattle.types_rules.specs.Assignments as spec;
ghost use Rattle.pawn_verdict.specs.Answers.{Answers};
ghost use Rattle.check_nodes.specs.ContextView.{around_view};
ghost use Rattle.check_nodes.specs.TypedView.{form_view, typed_view};

use super::context::Context;
use super::operators::{chosen_for_one, make_value};
use super::typed::{Form, Typed};
use pawn_meaning::{Expr, Scalar};
use pawn_tags::{Choice, Op};
use pawn_tree::At;
use pawn_verdict::{CheckFault, broken};
use std::alloc::Global;
use types_rules::{ARRAY_NOT_INDEXED, NOT_ASSIGNABLE};

/// The one cell that is written.
///
/// # Errors
///
/// 52 for a mere value, a literal and a constant place, 54 for an array.
pub fn target(at: At, form: Form) -> Result<Scalar, CheckFault>
    ensures { Answers scalar_view (spec.target_in at (form_view form)) result }
{
    match form {
        Form::Place(place, constant) => {
            if constant {
                Err(broken(NOT_ASSIGNABLE, at.place))
            } else {
                Ok(place)
            }
        }
        Form::Whole(..) => Err(broken(ARRAY_NOT_INDEXED, at.place)),
        Form::Value(_) => Err(broken(NOT_ASSIGNABLE, at.place)),
        Form::Literal(..) => Err(broken(NOT_ASSIGNABLE, at.place)),
    }
}

fn step_op(up: bool) -> Op
    ensures { result ≡ spec.step_op up }
{
    if up { Op::Inc } else { Op::Dec }
}

fn step_delta(up: bool) -> i32
    ensures { result ≡ spec.step_delta up }
{
    if up { 1 } else { -1 }
}

/// What a user operator gives is stored as it is.
fn step_code(up: bool, is_prefix: bool, place: Scalar, by: Option<Choice>) -> Expr
    ensures { expr_view result ≡ spec.step_code up is_prefix (scalar_view place) by }
{
    match by {
        None => Expr::Step(place, step_delta(up), is_prefix),
        Some(by) => Expr::StepBy(place, by.function, is_prefix),
    }
}

/// `++` or `--`, before or behind its operand.
#[tactic(auto, unfolding(types_rules::specs::Assignments::step_rule), using(pawn_verdict::proofs::VerdictLaws::verdicts))]
pub fn step(
    alloc: Global,
    cx: &Context,
    at: At,
    up: bool,
    is_prefix: bool,
    x: Typed,
) -> Result<Typed, CheckFault>
    ensures { Answers typed_view
        (spec.step_rule (around_view cx.now) at up is_prefix (typed_view x)) result }
{
    let place = target(at, x.form)?;
    let by = chosen_for_one(cx, step_op(up), x.tag);
    let code = Box::new(alloc, step_code(up, is_prefix, place, by))?;
    Ok(make_value(at, code, x.tag, None, x.made))
}
