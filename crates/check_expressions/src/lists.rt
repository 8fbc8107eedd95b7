ghost use Rattle.std.specs.Prelude.{◌≡◌, ℕ, List, ◌∷◌, map};
ghost use Rattle.pawn_tree.specs.View.{link_view};
ghost use Rattle.names_rules.specs.Verdict.{Verdict, Stands, after};
ghost use Rattle.names_rules.specs.Verdict as spec;
ghost use Rattle.types_rules.specs.Typed.{Typed as Plain};
ghost use Rattle.types_rules.specs.Chains.{Compared as PlainLink, link_rule};
ghost use Rattle.types_rules.specs.Filling.{Offer as PlainOffer};
ghost use Rattle.types_rules.specs.Filling as filling;
ghost use Rattle.check_nodes.specs.PartAnswers.{Judged, PartAnswers};
ghost use Rattle.check_nodes.specs.Compared.{compared_view};
ghost use Rattle.check_calls.specs.FillingView.{offer_view};
ghost use Rattle.check_expressions.specs.BoxedView.{boxed_view};
ghost use Rattle.check_expressions.specs.Links.{sign_in};
ghost use Rattle.check_expressions.specs.SoFar.{SoFar};

use super::told_faults::both;
use check_calls::Offer;
use check_nodes::{Compared, PartFault, Typed, link};
use pawn_base::Bytes;
use pawn_token::Sign;
use pawn_tree::Link;

// ---- the links of a chain

/// The sign of a link.
pub fn sign_of(it: &Link) -> Sign
    ensures { result ≡ sign_in (link_view it.now) }
{
    match it {
        Link::Compare(sign, _) => *sign,
    }
}

/// A link with its operand.
#[tactic(auto, using(check_nodes::proofs::PartLaws::parts, crate::proofs::PairLaws::pairs))]
pub fn compare(sign: Sign, x: Result<Box<Typed>, PartFault>) -> Result<Compared, PartFault>
    ensures answer { (v : Verdict Plain) → PartAnswers boxed_view v x →
        PartAnswers compared_view (after v (λ x. link_rule x.at sign x)) result }
    ensures judged { (m n : ℕ) → Judged x (m ≡ n) → Judged result (m ≡ n) }
{
    let x = Box::into_inner(x?);
    Ok(link(x.at, sign, x)?)
}

/// One more link.
pub fn with_link(
    all: Result<Vec<Compared>, PartFault>,
    it: Result<Compared, PartFault>,
) -> Result<Vec<Compared>, PartFault>
    ensures so_far { (whole rest : Verdict (List PlainLink)) (w : Verdict PlainLink) →
        SoFar (λ all. map compared_view all.items) whole
        (spec.both w rest (λ x more. Stands (x ∷ more))) all →
        Judged all (PartAnswers compared_view w it) →
        SoFar (λ all. map compared_view all.items) whole rest result }
    ensures judged { (m n : ℕ) → Judged all (Judged it (m ≡ n)) → Judged result (m ≡ n) }
{
    let (mut all, it) = both(all, it)?;
    all.push(it)?;
    Ok(all)
}

// ---- what a call is offered

/// An argument by its place.
#[tactic(auto, using(check_nodes::proofs::PartLaws::parts, crate::proofs::PairLaws::pairs))]
pub fn positional<'a>(x: Result<Box<Typed>, PartFault>) -> Result<Offer<'a>, PartFault>
    ensures answer { (v : Verdict Plain) → PartAnswers boxed_view v x →
        PartAnswers offer_view (after v (λ x. Stands (filling.Positional x))) result }
    ensures judged { (m n : ℕ) → Judged x (m ≡ n) → Judged result (m ≡ n) }
{
    let x = x?;
    Ok(Offer::Positional(Box::into_inner(x)))
}

/// An argument by the name of its parameter.
#[tactic(auto, using(check_nodes::proofs::PartLaws::parts, crate::proofs::PairLaws::pairs))]
pub fn named<'a>(name: &'a Bytes, x: Result<Box<Typed>, PartFault>) -> Result<Offer<'a>, PartFault>
    ensures answer { (v : Verdict Plain) → PartAnswers boxed_view v x →
        PartAnswers offer_view (after v (λ x. Stands (filling.Named name.now x))) result }
    ensures judged { (m n : ℕ) → Judged x (m ≡ n) → Judged result (m ≡ n) }
{
    let x = x?;
    Ok(Offer::Named(name, Box::into_inner(x)))
}

/// One more argument.
pub fn with_offer<'a>(
    all: Result<Vec<Offer<'a>>, PartFault>,
    it: Result<Offer<'a>, PartFault>,
) -> Result<Vec<Offer<'a>>, PartFault>
    ensures so_far { (whole rest : Verdict (List PlainOffer)) (w : Verdict PlainOffer) →
        SoFar (λ all. map offer_view all.items) whole
        (spec.both w rest (λ x more. Stands (x ∷ more))) all.entry →
        Judged all.entry (PartAnswers offer_view w it.entry) →
        SoFar (λ all. map offer_view all.items) whole rest result }
    ensures judged { (m n : ℕ) → Judged all.entry (Judged it.entry (m ≡ n)) →
        Judged result (m ≡ n) }
{
    let (mut all, it) = both(all, it)?;
    all.push(it)?;
    Ok(all)
}
