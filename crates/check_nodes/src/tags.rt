ghost use Rattle.std.specs.Prelude.{◌≡◌, ◌∷◌, [], ◌||◌, nat_eq, IfOk};
ghost use Rattle.std.specs.List.{list_any};
ghost use Rattle.pawn_tags.specs.Matching.{matches as is_match};
ghost use Rattle.pawn_tree.specs.declared.name.At.{At as Place};
ghost use Rattle.types_rules.specs.Around as around;
ghost use Rattle.types_rules.specs.Tests as tests;
ghost use Rattle.check_nodes.specs.CodeView.{code_view};
ghost use Rattle.check_nodes.specs.ContextView.{around_view};

use super::context::Context;
use pawn_base::Memory;
use pawn_meaning::Expr;
use pawn_tags::{Op, UNTAGGED, matches};
use std::alloc::Global;

/// The number of a tag's name.
pub fn tag_number(cx: &Context, name: &[u8]) -> u32
    ensures { result ≡ around.tag_number (around_view cx.now) name.now }
{
    cx.tags.number(name).unwrap_or(UNTAGGED)
}

/// The tag of what a function gives.
pub fn function_tag(cx: &Context, function: u32) -> u32
    ensures { result ≡ around.function_tag (around_view cx.now) function }
{
    match cx.functions.as_slice().get(function as usize) {
        None => UNTAGGED,
        Some(it) => it.tag,
    }
}

/// A set's first tag, which is the parameter's own.
pub fn first_tag(tags: &[u32]) -> u32
    ensures { result ≡ around.first_tag tags.now }
{
    match tags.first() {
        None => UNTAGGED,
        Some(tag) => *tag,
    }
}

/// Whether one of two tags takes the other, as those of operands and choices have to.
pub fn takes_either(cx: &Context, left: u32, right: u32) -> bool
    ensures { result ≡ (is_match cx.now.tags (left ∷ []) right ||
        is_match cx.now.tags (right ∷ []) left) }
{
    matches(&cx.tags, &[left], right) || matches(&cx.tags, &[right], left)
}

/// The user operator that converts a value of one tag to another.
#[tactic(auto, using(crate::proofs::ChoiceLaws::assigned_by))]
pub fn converter(cx: &Context, from: u32, to: u32) -> Option<u32>
    ensures { result ≡ tests.converter (around_view cx.now) from to }
{
    if from == to {
        return None;
    }
    match cx.operators.choose(Op::Assign, from, to) {
        None => None,
        Some(choice) => Some(choice.function),
    }
}

fn is_among(actual: u32, tags: &[u32]) -> bool
    ensures { result ≡ list_any (nat_eq actual) tags.now }
{
    tags.iter().any(|tag| *tag == actual)
}

/// The user operator that converts a value for one of the formal tags.
pub fn converter_to(cx: &Context, formal: &[u32], actual: u32) -> Option<u32>
    ensures { result ≡ tests.converter_to (around_view cx.now) formal.now actual }
{
    if is_among(actual, formal) {
        None
    } else {
        converter(cx, actual, first_tag(formal))
    }
}

/// A value on its way to a target, and whether its tag fits there.
#[derive(Drop)]
pub struct Sent {
    pub code: Box<Expr>,
    pub passed: bool,
}

/// A value of an actual tag goes to a target of formal tags: it is converted, and then not tested.
#[tactic(auto, unfolding(types_rules::specs::Tests::sent))]
pub fn send(
    alloc: Global,
    cx: &Context,
    formal: &[u32],
    actual: u32,
    code: Box<Expr>,
) -> Result<Sent, Memory>
    ensures { IfOk result (λ it. (at : Place) →
        tests.sent (around_view cx.now) formal.now actual at (code_view code)
        ≡ record { code = code_view it.code; warned = tests.unless_passed it.passed at }) }
{
    match converter_to(cx, formal, actual) {
        None => Ok(Sent {
            code,
            passed: matches(&cx.tags, formal, actual),
        }),
        Some(function) => Ok(Sent {
            code: Box::new(alloc, Expr::OperateOne(function, code))?,
            passed: true,
        }),
    }
}
