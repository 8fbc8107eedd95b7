ghost use Rattle.types_rules.specs.Prefixes as spec;
ghost use Rattle.pawn_verdict.specs.Answers.{Answers};
ghost use Rattle.check_nodes.specs.ContextView.{around_view};
ghost use Rattle.check_nodes.specs.TypedView.{typed_view};

use super::context::Context;
use super::operators::{invert, negate, negate_truth};
use super::steps::step;
use super::typed::Typed;
use pawn_token::Sign;
use pawn_tree::At;
use pawn_verdict::{CheckFault, broken};
use std::alloc::Global;
use types_rules::UNDEFINED;

/// A sign before an operand.
///
/// # Errors
///
/// 54 for an array; of `++` and `--` 52 for what is no place, or a constant one.
#[tactic(auto, using(crate::proofs::OperandSignLaws::prefix_fails))]
pub fn prefix(
    alloc: Global,
    cx: &Context,
    at: At,
    sign: Sign,
    x: Typed,
) -> Result<Typed, CheckFault>
    ensures { Answers typed_view
        (spec.prefix_rule (around_view cx.now) at sign (typed_view x)) result }
{
    match sign {
        Sign::Exclamation => negate_truth(alloc, cx, at, x),
        Sign::Minus => negate(alloc, cx, at, x),
        Sign::Tilde => invert(alloc, cx, at, x),
        Sign::Increment => step(alloc, cx, at, true, true, x),
        Sign::Decrement => step(alloc, cx, at, false, true, x),
        _ => Err(broken(UNDEFINED, at.place)),
    }
}

/// `++` or `--` behind an operand.
///
/// # Errors
///
/// 54 for an array, 52 for what is no place, or a constant one.
#[tactic(auto, using(crate::proofs::OperandSignLaws::postfix_fails))]
pub fn postfix(
    alloc: Global,
    cx: &Context,
    at: At,
    sign: Sign,
    x: Typed,
) -> Result<Typed, CheckFault>
    ensures { Answers typed_view
        (spec.postfix_rule (around_view cx.now) at sign (typed_view x)) result }
{
    match sign {
        Sign::Increment => step(alloc, cx, at, true, false, x),
        Sign::Decrement => step(alloc, cx, at, false, false, x),
        _ => Err(broken(UNDEFINED, at.place)),
    }
}
