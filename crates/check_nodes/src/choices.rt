ghost use Rattle.std.specs.Prelude.{◌≡◌, ◌++◌, map, IfOk};
ghost use Rattle.pawn_meaning.specs.View.{object_view};
ghost use Rattle.types_rules.specs.Rule.{pair};
ghost use Rattle.types_rules.specs.Tests.{unless_passed};
ghost use Rattle.types_rules.specs.Typed.{cell_in};
ghost use Rattle.types_rules.specs.Choices as spec;
ghost use Rattle.pawn_verdict.specs.Answers.{Answers};
ghost use Rattle.check_nodes.specs.ContextView.{around_view};
ghost use Rattle.check_nodes.specs.CodeView.{code_view};
ghost use Rattle.check_nodes.specs.TypedView.{form_view, typed_view};

use super::context::Context;
use super::made::Made;
use super::operators::make_value;
use super::tags::takes_either;
use super::typed::{Form, Typed};
use super::wanted_cell::cell;
use pawn_base::Memory;
use pawn_meaning::Expr;
use pawn_tree::At;
use pawn_verdict::CheckFault;
use std::alloc::Global;

/// It is constant where its three parts are, needed or not.
fn choice_value(test: Option<i32>, first: Option<i32>, second: Option<i32>) -> Option<i32>
    ensures { result ≡ spec.value_of_choice test first second }
{
    let (Some(test), Some(first), Some(second)) = (test, first, second) else {
        return None;
    };
    Some(if test != 0 { first } else { second })
}

/// The values of two parts where the node at a token wants one cell each.
///
/// # Errors
///
/// 54 for an array.
#[tactic(auto, using(pawn_verdict::proofs::VerdictLaws::verdicts))]
fn two_cells(alloc: Global, at: At, x: Form, y: Form) -> Result<(Box<Expr>, Box<Expr>), CheckFault>
    ensures { Answers (λ both. (code_view both.0, code_view both.1))
        (pair (cell_in at (form_view x)) (cell_in at (form_view y))) result }
{
    let first = cell(alloc, at, x);
    let second = cell(alloc, at, y);
    Ok((first?, second?))
}

/// What was made and found in three parts, with a warning before the last one where a test failed.
fn join_three(
    alloc: Global,
    x: Made,
    y: Made,
    passed: bool,
    at: At,
    z: Made,
) -> Result<Made, Memory>
    ensures literals { IfOk result (λ all. map object_view all.literals ≡ map object_view x.literals
        ++ (map object_view y.literals ++ map object_view z.literals)) }
    ensures warned { IfOk result (λ all. all.warned ≡
        x.warned ++ (y.warned ++ (unless_passed passed at ++ z.warned))) }
{
    let behind = y.then_behind(alloc, passed, at, z)?;
    x.then(behind)
}

/// `? :`, whose two choices are tested against each other. It has the tag of the first one.
///
/// # Errors
///
/// 54 for an array.
#[tactic(auto, unfolding(types_rules::specs::Choices::choice_rule), using(pawn_verdict::proofs::VerdictLaws::verdicts))]
pub fn choice(
    alloc: Global,
    cx: &Context,
    at: At,
    x: Typed,
    y: Typed,
    z: Typed,
) -> Result<Typed, CheckFault>
    ensures { Answers typed_view
        (spec.choice_rule (around_view cx.now) at (typed_view x) (typed_view y)
        (typed_view z)) result }
{
    let value = choice_value(x.value, y.value, z.value);
    let passed = takes_either(cx, y.tag, z.tag);
    let test = cell(alloc, at, x.form);
    let choices = two_cells(alloc, at, y.form, z.form);
    let made = join_three(alloc, x.made, y.made, passed, z.at, z.made);
    let (test, (first, second)) = (test?, choices?);
    let code = Box::new(alloc, Expr::Cond(test, first, second))?;
    Ok(make_value(at, code, y.tag, value, made?))
}
