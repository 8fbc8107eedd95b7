ghost use Rattle.std.specs.Prelude.{◌≡◌, option_map};
ghost use Rattle.names_rules.specs.Verdict.{Stands, after, both};
ghost use Rattle.types_rules.specs.Rule.{pair};
ghost use Rattle.pawn_meaning.specs.Program.{otherwise};
ghost use Rattle.types_rules.specs.Statements as spec;
ghost use Rattle.types_rules.specs.Stood.{one_of};
ghost use Rattle.pawn_verdict.specs.Answers.{Answers};
ghost use Rattle.check_nodes.specs.TypedView.{typed_view};
ghost use Rattle.check_locals.specs.Tells.{Tells, told};
ghost use Rattle.check_locals.specs.StoodView.{maybe_view, other_view, stood_view};
ghost use Rattle.check_statements.specs.BodyJudging.{for_by_in, maybe_use_in, use_in};

use super::setting::Setting;
use check_locals::{
    Maybe, Outcome, Stood, block_rule, do_while_rule, for_rule, if_rule, use_at, while_rule,
};
use check_nodes::Typed;
use pawn_tree::At;
use pawn_verdict::CheckFault;
use std::alloc::Global;

/// A block by its statements.
#[tactic(auto, using(check_locals::proofs::ToldLaws::parts))]
#[inline(never)]
pub fn block_told(alloc: Global, it: Option<Stood>) -> Outcome
    ensures { Tells stood_view
        (after (told stood_view it) (λ x. Stands (spec.block_rule x))) result }
{
    let Some(it) = it else {
        return Ok(None);
    };
    Ok(Some(block_rule(alloc, it)?))
}

/// What stands behind `else` and `default`, by its statement.
pub fn other_of(it: Option<Stood>) -> Option<Option<Stood>>
    ensures { told other_view result ≡ after (told stood_view it) (λ x.
        Stands (record { stood = x; other = otherwise (one_of x) })) }
{
    match it {
        None => None,
        Some(it) => Some(Some(it)),
    }
}

/// An `if` by its parts.
#[tactic(auto, using(pawn_verdict::proofs::VerdictLaws::verdicts))]
fn if_by(
    setting: &Setting,
    at: At,
    c: Typed,
    s: Stood,
    other: Option<Stood>,
) -> Result<Stood, CheckFault>
    ensures { Answers stood_view (after (use_in setting.now at (typed_view c))
        (λ c. Stands (spec.if_rule c (stood_view s) (other_view other)))) result }
{
    let c = use_at(setting.alloc, at, c)?;
    Ok(if_rule(setting.alloc, c, s, other)?)
}

/// An `if` by its parts, which stand or fall.
#[inline(never)]
pub fn if_told(
    setting: &Setting,
    at: At,
    c: Option<Typed>,
    s: Option<Stood>,
    other: Option<Option<Stood>>,
) -> Outcome
    ensures { Tells stood_view (both (told typed_view c)
        (pair (told stood_view s) (told other_view other))
        (λ x parts. after (use_in setting.now at x)
        (λ c. Stands (spec.if_rule c parts.0 parts.1)))) result }
{
    let Some(s) = s else {
        return Ok(None);
    };
    let Some(other) = other else {
        return Ok(None);
    };
    let Some(c) = c else {
        return Ok(None);
    };
    Ok(Some(if_by(setting, at, c, s, other)?))
}

/// A `while` by its parts.
#[tactic(auto, using(pawn_verdict::proofs::VerdictLaws::verdicts))]
fn while_by(setting: &Setting, at: At, c: Typed, s: Stood) -> Result<Stood, CheckFault>
    ensures { Answers stood_view (after (use_in setting.now at (typed_view c))
        (λ c. Stands (spec.while_rule c (stood_view s)))) result }
{
    let c = use_at(setting.alloc, at, c)?;
    Ok(while_rule(setting.alloc, c, s)?)
}

/// A `while` by its parts, which stand or fall.
#[inline(never)]
pub fn while_told(setting: &Setting, at: At, c: Option<Typed>, s: Option<Stood>) -> Outcome
    ensures { Tells stood_view (both (told typed_view c) (told stood_view s)
        (λ x y. after (use_in setting.now at x) (λ c. Stands (spec.while_rule c y)))) result }
{
    let Some(s) = s else {
        return Ok(None);
    };
    let Some(c) = c else {
        return Ok(None);
    };
    Ok(Some(while_by(setting, at, c, s)?))
}

/// A `do` by its parts.
#[tactic(auto, using(pawn_verdict::proofs::VerdictLaws::verdicts))]
fn do_while_by(setting: &Setting, at: At, s: Stood, c: Typed) -> Result<Stood, CheckFault>
    ensures { Answers stood_view (after (use_in setting.now at (typed_view c))
        (λ c. Stands (spec.do_while_rule (stood_view s) c))) result }
{
    let c = use_at(setting.alloc, at, c)?;
    Ok(do_while_rule(setting.alloc, s, c)?)
}

/// A `do` by its parts, which stand or fall.
#[inline(never)]
pub fn do_while_told(setting: &Setting, at: At, s: Option<Stood>, c: Option<Typed>) -> Outcome
    ensures { Tells stood_view (both (told stood_view s) (told typed_view c)
        (λ x y. after (use_in setting.now at y) (λ c. Stands (spec.do_while_rule x c)))) result }
{
    let Some(s) = s else {
        return Ok(None);
    };
    let Some(c) = c else {
        return Ok(None);
    };
    Ok(Some(do_while_by(setting, at, s, c)?))
}

// ---- for

/// One cell, where there is a part.
#[tactic(auto, using(pawn_verdict::proofs::VerdictLaws::verdicts))]
fn maybe_use(setting: &Setting, at: At, x: Option<Typed>) -> Result<Maybe, CheckFault>
    ensures { Answers maybe_view
        (maybe_use_in setting.now at (option_map typed_view x)) result }
{
    let Some(x) = x else {
        return Ok(Maybe::absent(setting.alloc));
    };
    Ok(Maybe::present(use_at(setting.alloc, at, x)?))
}

/// A `for` by its parts, whose values are one cell each.
#[tactic(auto, using(pawn_verdict::proofs::VerdictLaws::verdicts))]
fn for_by(
    setting: &Setting,
    at: At,
    first: Stood,
    c: Option<Typed>,
    step: Option<Typed>,
    s: Stood,
) -> Result<Stood, CheckFault>
    ensures { Answers stood_view (for_by_in setting.now at (stood_view first)
        (option_map typed_view c) (option_map typed_view step) (stood_view s)) result }
{
    let c = maybe_use(setting, at, c)?;
    let step = maybe_use(setting, at, step)?;
    Ok(for_rule(setting.alloc, first, c, step, s)?)
}

/// A `for` by its parts, which stand or fall.
#[inline(never)]
pub fn for_told(
    setting: &Setting,
    at: At,
    first: Option<Stood>,
    c: Option<Option<Typed>>,
    step: Option<Option<Typed>>,
    s: Option<Stood>,
) -> Outcome
    ensures { Tells stood_view (both (told stood_view first)
        (pair (pair (told (option_map typed_view) c) (told (option_map typed_view) step))
        (told stood_view s))
        (λ x it. for_by_in setting.now at x it.0.0 it.0.1 it.1)) result }
{
    let Some(first) = first else {
        return Ok(None);
    };
    let Some(c) = c else {
        return Ok(None);
    };
    let Some(step) = step else {
        return Ok(None);
    };
    let Some(s) = s else {
        return Ok(None);
    };
    Ok(Some(for_by(setting, at, first, c, step, s)?))
}
