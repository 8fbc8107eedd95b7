ghost use Rattle.std.specs.Prelude.{◌≡◌, ◌++◌, IfOk};
ghost use Rattle.pawn_tree.specs.View.{expr_view};
ghost use Rattle.types_rules.specs.Tests.{unless_passed};
ghost use Rattle.types_rules.specs.Expressions as typed;
ghost use Rattle.types_rules.specs.Constants as spec;
ghost use Rattle.pawn_verdict.specs.Answers.{Answers};
ghost use Rattle.check_nodes.specs.PartAnswers.{PartAnswers};
ghost use Rattle.check_nodes.specs.ContextView.{around_view};
ghost use Rattle.check_nodes.specs.TypedView.{typed_view};
ghost use Rattle.check_nodes.specs.Scopes.{scope_view};
ghost use Rattle.check_expressions.specs.ValueViews.{constant_view};

use super::expression::expr;
use check_nodes::{Context, PartFault, Scopes, Typed};
use pawn_base::{List, Memory};
use pawn_tags::matches;
use pawn_tree::{At, Expr};
use pawn_verdict::{CheckFault, broken};
use std::alloc::Global;
use types_rules::CONSTANT_NEEDED;

/// An expression behind so many objects.
///
/// # Errors
///
/// What breaks a rule in it.
pub fn behind(
    alloc: Global,
    cx: &Context,
    scopes: &Scopes,
    before: u32,
    e: &Expr,
) -> Result<Typed, PartFault>
    ensures { PartAnswers typed_view
        (typed.expr (around_view cx.now) (scope_view scopes.now) before (expr_view e.now)) result }
{
    let mut objects = before;
    expr(alloc, cx, scopes, &mut objects, e)
}

/// An expression before which no object is counted.
///
/// # Errors
///
/// What breaks a rule in it.
pub fn alone(alloc: Global, cx: &Context, scopes: &Scopes, e: &Expr) -> Result<Typed, PartFault>
    ensures { PartAnswers typed_view
        (typed.expr (around_view cx.now) (scope_view scopes.now) 0 (expr_view e.now)) result }
{
    behind(alloc, cx, scopes, 0, e)
}

/// A constant: its first token, value and tag, and what it warns of.
#[derive(Drop)]
pub struct Constant {
    pub at: At,
    pub value: i32,
    pub tag: u32,
    pub warned: List<At>,
}

/// An expression where the node at a token wants a value that is known.
///
/// # Errors
///
/// 57 where no value is known.
#[tactic(auto, unfolding(types_rules::specs::Constants::constant_rule))]
pub fn constant_rule(at: At, x: Typed) -> Result<Constant, CheckFault>
    ensures { Answers constant_view (spec.constant_rule at (typed_view x)) result }
{
    match x.value {
        None => Err(broken(CONSTANT_NEEDED, at.place)),
        Some(value) => {
            let made = x.made;
            Ok(Constant {
                at: x.at,
                value,
                tag: x.tag,
                warned: made.warned,
            })
        }
    }
}

/// A constant expression (Language Guide, "Constants"). No literal stands in one, so none is
/// counted before it.
///
/// # Errors
///
/// 57 where no value is known, and what breaks a rule in the expression.
#[tactic(auto, using(check_nodes::proofs::PartLaws::parts))]
pub fn constant_value(
    alloc: Global,
    cx: &Context,
    scopes: &Scopes,
    at: At,
    e: &Expr,
) -> Result<Constant, PartFault>
    ensures { PartAnswers constant_view
        (spec.constant (around_view cx.now) (scope_view scopes.now) at (expr_view e.now)) result }
{
    let x = alone(alloc, cx, scopes, e)?;
    Ok(constant_rule(at, x)?)
}

/// The warnings of a value, with one before them where its own test failed.
pub fn tested_first(
    alloc: Global,
    passed: bool,
    at: At,
    others: List<At>,
) -> Result<List<At>, Memory>
    ensures { IfOk result (λ warned. warned ≡ unless_passed passed at ++ others) }
{
    let mut warned = List::new(alloc);
    if !passed {
        warned.push(at)?;
    }
    warned.append(others)?;
    Ok(warned)
}

/// What a constant warns of where it goes to a target of a tag, to which no user operator converts
/// it.
pub fn constant_warned(
    alloc: Global,
    cx: &Context,
    tag: u32,
    it: Constant,
) -> Result<List<At>, Memory>
    ensures { IfOk result (λ warned. warned
        ≡ spec.constant_warned (around_view cx.now) tag (constant_view it)) }
{
    let passed = matches(&cx.tags, &[tag], it.tag);
    tested_first(alloc, passed, it.at, it.warned)
}
