ghost use Rattle.std.specs.Prelude.{◌≡◌, ℕ, List, map};
ghost use Rattle.names_rules.specs.Verdict.{Verdict, after};
ghost use Rattle.names_rules.specs.Verdict as spec;
ghost use Rattle.types_rules.specs.Rule.{pair};
ghost use Rattle.types_rules.specs.Typed.{Typed as Plain};
ghost use Rattle.types_rules.specs.Chains.{Compared as PlainLink, chain_rule};
ghost use Rattle.types_rules.specs.Choices.{choice_rule};
ghost use Rattle.types_rules.specs.Operators.{tagged_rule};
ghost use Rattle.pawn_verdict.specs.Answers.{Answers};
ghost use Rattle.check_nodes.specs.PartAnswers.{Judged, PartAnswers};
ghost use Rattle.check_nodes.specs.ContextView.{around_view};
ghost use Rattle.check_nodes.specs.TypedView.{typed_view};
ghost use Rattle.check_nodes.specs.Compared.{compared_view};
ghost use Rattle.check_expressions.specs.BoxedView.{boxed_view};
ghost use Rattle.check_expressions.specs.Nodes.{double_rule, single_rule};

use super::boxes::boxed;
use super::told_faults::both;
use check_calls::{assign, character, index};
use check_nodes::{
    Compared, Context, PartFault, Typed, binary, chain, choice, paren, postfix, prefix, tagged,
};
use pawn_base::Bytes;
use pawn_token::Sign;
use pawn_tree::At;
use pawn_verdict::CheckFault;
use std::alloc::Global;

// ---- one operand

/// What a node of one operand does with it.
#[derive(Clone, Copy)]
pub enum Single<'a> {
    Paren,
    Prefix(Sign),
    /// A tag before the operand.
    Tagged(&'a Bytes),
    Postfix(Sign),
}

/// A tag before an operand.
fn with_tag(cx: &Context, at: At, tag: &Bytes, x: Typed) -> Typed
    ensures { typed_view result ≡ tagged_rule (around_view cx.now) at tag.now (typed_view x) }
{
    let name = tag.as_slice();
    tagged(cx, at, name, x)
}

/// A node of one operand that stands.
fn single_typed(
    alloc: Global,
    cx: &Context,
    at: At,
    by: Single,
    x: Typed,
) -> Result<Typed, CheckFault>
    ensures { Answers typed_view
        (single_rule (around_view cx.now) at by.entry (typed_view x)) result }
{
    match by {
        Single::Paren => Ok(paren(at, x)),
        Single::Prefix(sign) => prefix(alloc, cx, at, sign, x),
        Single::Tagged(tag) => Ok(with_tag(cx, at, tag, x)),
        Single::Postfix(sign) => postfix(alloc, cx, at, sign, x),
    }
}

/// A node of one operand.
#[tactic(auto, using(check_nodes::proofs::PartLaws::parts, crate::proofs::PairLaws::pairs))]
#[inline(never)]
pub fn with_operand(
    alloc: Global,
    cx: &Context,
    at: At,
    by: Single,
    x: Result<Box<Typed>, PartFault>,
) -> Result<Box<Typed>, PartFault>
    ensures answer { (v : Verdict Plain) → PartAnswers boxed_view v x →
        PartAnswers boxed_view (after v (single_rule (around_view cx.now) at by.entry)) result }
    ensures judged { (m n : ℕ) → Judged x (m ≡ n) → Judged result (m ≡ n) }
{
    let x = x?;
    let node = single_typed(alloc, cx, at, by, Box::into_inner(x))?;
    Ok(Box::new(alloc, node)?)
}

// ---- two operands

/// What a node of two operands does with them.
#[derive(Clone, Copy)]
pub enum Double {
    Index,
    Character,
    /// A sign between the two.
    Binary(Sign),
    /// `=`, or an operator with `=`.
    Assign(Sign),
}

/// A node of two operands that stand.
fn double_typed(
    alloc: Global,
    cx: &Context,
    at: At,
    by: Double,
    x: Typed,
    y: Typed,
) -> Result<Typed, CheckFault>
    ensures { Answers typed_view
        (double_rule (around_view cx.now) at by (typed_view x) (typed_view y)) result }
{
    match by {
        Double::Index => index(alloc, at, x, y),
        Double::Character => character(alloc, at, x, y),
        Double::Binary(sign) => binary(alloc, cx, at, sign, x, y),
        Double::Assign(sign) => assign(alloc, cx, at, sign, x, y),
    }
}

/// A node of two operands.
#[inline(never)]
pub fn with_operands(
    alloc: Global,
    cx: &Context,
    at: At,
    by: Double,
    x: Result<Box<Typed>, PartFault>,
    y: Result<Box<Typed>, PartFault>,
) -> Result<Box<Typed>, PartFault>
    ensures answer { (v w : Verdict Plain) → PartAnswers boxed_view v x →
        Judged x (PartAnswers boxed_view w y) →
        PartAnswers boxed_view (spec.both v w (double_rule (around_view cx.now) at by)) result }
    ensures judged { (m n : ℕ) → Judged x (Judged y (m ≡ n)) → Judged result (m ≡ n) }
{
    let (x, y) = both(x, y)?;
    let node = double_typed(alloc, cx, at, by, Box::into_inner(x), Box::into_inner(y));
    boxed(alloc, node)
}

// ---- chains and choices

/// A chain of comparisons behind its first operand.
#[inline(never)]
pub fn chained(
    alloc: Global,
    cx: &Context,
    at: At,
    x: Result<Box<Typed>, PartFault>,
    links: Result<Vec<Compared>, PartFault>,
) -> Result<Box<Typed>, PartFault>
    ensures answer { (v : Verdict Plain) (w : Verdict (List PlainLink)) →
        PartAnswers boxed_view v x →
        Judged x (PartAnswers (λ all. map compared_view all.items) w links) →
        PartAnswers boxed_view (spec.both v w (chain_rule (around_view cx.now) at)) result }
    ensures judged { (m n : ℕ) → Judged x (Judged links (m ≡ n)) → Judged result (m ≡ n) }
{
    let (x, links) = both(x, links)?;
    let node = chain(alloc, cx, at, Box::into_inner(x), links);
    boxed(alloc, node)
}

/// `? :`, by its condition and both values.
fn chosen(
    alloc: Global,
    cx: &Context,
    at: At,
    x: Result<Box<Typed>, PartFault>,
    values: Result<(Box<Typed>, Box<Typed>), PartFault>,
) -> Result<Box<Typed>, PartFault>
    ensures answer { (v : Verdict Plain) (w : Verdict (Plain × Plain)) →
        PartAnswers boxed_view v x →
        Judged x (PartAnswers (λ it. (boxed_view it.0, boxed_view it.1)) w values) →
        PartAnswers boxed_view (spec.both v w
        (λ x parts. choice_rule (around_view cx.now) at x parts.0 parts.1)) result }
    ensures judged { (m n : ℕ) → Judged x (Judged values (m ≡ n)) → Judged result (m ≡ n) }
{
    let (x, values) = both(x, values)?;
    let (y, z) = values;
    let node = choice(
        alloc,
        cx,
        at,
        Box::into_inner(x),
        Box::into_inner(y),
        Box::into_inner(z),
    );
    boxed(alloc, node)
}

/// `? :`
#[inline(never)]
pub fn choose(
    alloc: Global,
    cx: &Context,
    at: At,
    x: Result<Box<Typed>, PartFault>,
    y: Result<Box<Typed>, PartFault>,
    z: Result<Box<Typed>, PartFault>,
) -> Result<Box<Typed>, PartFault>
    ensures answer { (v w u : Verdict Plain) → PartAnswers boxed_view v x →
        Judged x (PartAnswers boxed_view w y) →
        Judged x (Judged y (PartAnswers boxed_view u z)) →
        PartAnswers boxed_view (spec.both v (pair w u)
        (λ x parts. choice_rule (around_view cx.now) at x parts.0 parts.1)) result }
    ensures judged { (m n : ℕ) → Judged x (Judged y (Judged z (m ≡ n))) →
        Judged result (m ≡ n) }
{
    let values = both(y, z);
    chosen(alloc, cx, at, x, values)
}
