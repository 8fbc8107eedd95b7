ghost use Rattle.std.specs.Prelude.{◌≡◌, None, IfOk};
ghost use Rattle.pawn_meaning.specs.View.{scalar_view};
ghost use Rattle.pawn_tree.specs.declared.name.At.{At as Place};
ghost use Rattle.types_rules.specs.Assignments as spec;
ghost use Rattle.types_rules.specs.Tests.{unless_passed};
ghost use Rattle.pawn_verdict.specs.Answers.{Answers};
ghost use Rattle.pawn_verdict.specs.SignViews.{between_view};
ghost use Rattle.check_nodes.specs.CodeView.{code_view};
ghost use Rattle.check_nodes.specs.ContextView.{around_view};
ghost use Rattle.check_nodes.specs.TypedView.{form_view, typed_view};
ghost use Rattle.check_nodes.specs.OperandView.{operand_view};
ghost use Rattle.check_calls.specs.TargetView.{target_view};
ghost use Rattle.check_calls.specs.Updated.{updated_by};

use check_nodes::{
    Context, Made, Operand, Typed, chosen, converter, divides_by_zero, function_tag, make_value,
    takes_either, target,
};
use pawn_base::Memory;
use pawn_cells::Operator;
use pawn_meaning::{Expr, Scalar};
use pawn_tags::{Choice, matches};
use pawn_tree::At;
use pawn_verdict::{Between, CheckFault, broken};
use std::alloc::Global;
use types_rules::{CONSTANT_DIVIDE_BY_ZERO, UNDEFINED};

/// Whether what a user operator gives passes the test of its target, which it needn't where it is
/// converted.
fn passes_back(cx: &Context, target: u32, given: u32, convert: Option<u32>) -> bool
    ensures { (at : Place) → unless_passed result at
        ≡ spec.given_back (around_view cx.now) target given at convert }
{
    match convert {
        None => matches(&cx.tags, &[target], given),
        Some(_) => true,
    }
}

/// One cell that is written, with its tag and what was made and found in it.
#[derive(Drop)]
pub struct Target {
    pub place: Scalar,
    pub tag: u32,
    pub made: Made,
}

/// An expression as the cell that the node at a token writes.
///
/// # Errors
///
/// 52 for what can't be written, 54 for an array.
fn target_of(at: At, x: Typed) -> Result<Target, CheckFault>
    ensures place { Answers (λ it. scalar_view it.place)
        (spec.target_in at (form_view x.form)) result }
    ensures others { IfOk result (λ it. (it.tag ≡ x.tag) × (it.made ≡ x.made)) }
{
    let place = target(at, x.form)?;
    Ok(Target {
        place,
        tag: x.tag,
        made: x.made,
    })
}

/// A built-in operator with `=`.
///
/// # Errors
///
/// 67 for a division by a constant that is 0.
fn update_built_in(
    alloc: Global,
    cx: &Context,
    at: At,
    it: Operator,
    x: Target,
    y: Operand,
) -> Result<Typed, CheckFault>
    ensures { Answers typed_view (spec.updated (around_view cx.now) at it (target_view at x)
        (operand_view y) (scalar_view x.place) (code_view y.code) None) result }
{
    if divides_by_zero(it, y.value) {
        return Err(broken(CONSTANT_DIVIDE_BY_ZERO, at.place));
    }
    let passed = takes_either(cx, x.tag, y.tag);
    let made = x.made.then_behind(alloc, passed, y.at, y.made);
    let code = Box::new(alloc, Expr::Update(x.place, it, y.code))?;
    Ok(make_value(at, code, x.tag, None, made?))
}

/// A user operator with `=`. What it gives goes to the target: it is converted, or a test names the
/// right operand.
fn update_by_user(
    alloc: Global,
    cx: &Context,
    at: At,
    by: Choice,
    x: Target,
    y: Operand,
) -> Result<Typed, Memory>
    ensures { IfOk result (λ it. typed_view it ≡ updated_by (around_view cx.now) at by
        (target_view at x) (operand_view y) (scalar_view x.place) (code_view y.code)) }
{
    let given = function_tag(cx, by.function);
    let convert = converter(cx, given, x.tag);
    let passed = passes_back(cx, x.tag, given, convert);
    let made = x.made.then_behind(alloc, passed, y.at, y.made);
    let code = Expr::UpdateBy(x.place, by.function, by.swapped, y.code, convert);
    let code = Box::new(alloc, code)?;
    Ok(make_value(at, code, x.tag, None, made?))
}

/// The operator that is chosen: the user's if there is one, else the built-in one.
fn update_chosen(
    alloc: Global,
    cx: &Context,
    at: At,
    it: Operator,
    by: Option<Choice>,
    x: Target,
    y: Operand,
) -> Result<Typed, CheckFault>
    ensures { Answers typed_view (spec.updated (around_view cx.now) at it (target_view at x)
        (operand_view y) (scalar_view x.place) (code_view y.code) by) result }
{
    match by {
        None => update_built_in(alloc, cx, at, it, x, y),
        Some(by) => {
            let updated = update_by_user(alloc, cx, at, by, x, y)?;
            Ok(updated)
        }
    }
}

/// What a sign stands for, with `=` behind it.
///
/// # Errors
///
/// 52 for a target that can't be written, 54 for an array, 67 for a built-in division by a constant
/// that is 0.
#[tactic(auto, unfolding(types_rules::specs::Assignments::update_rule), using(pawn_verdict::proofs::VerdictLaws::verdicts))]
pub fn update_by(
    alloc: Global,
    cx: &Context,
    at: At,
    by: Between,
    x: Typed,
    y: Typed,
) -> Result<Typed, CheckFault>
    ensures { Answers typed_view (spec.update_by (around_view cx.now) at (between_view by)
        (typed_view x) (typed_view y)) result }
{
    match by {
        Between::Operates(it, user) => {
            let choice = chosen(cx, user, x.tag, y.tag);
            let place = target_of(at, x);
            let operand = y.as_operand(alloc, at);
            let (place, operand) = (place?, operand?);
            update_chosen(alloc, cx, at, it, choice, place, operand)
        }
        Between::Decides(_) => Err(broken(UNDEFINED, at.place)),
        Between::Takes => Err(broken(UNDEFINED, at.place)),
        Between::Nothing => Err(broken(UNDEFINED, at.place)),
    }
}
