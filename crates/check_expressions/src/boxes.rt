ghost use Rattle.std.specs.Prelude.{◌≡◌, ℕ};
ghost use Rattle.names_rules.specs.Verdict.{Verdict};
ghost use Rattle.types_rules.specs.Typed.{Typed as Plain};
ghost use Rattle.pawn_verdict.specs.Answers.{Answers};
ghost use Rattle.check_nodes.specs.PartAnswers.{Judged, PartAnswers};
ghost use Rattle.check_nodes.specs.TypedView.{typed_view};
ghost use Rattle.check_expressions.specs.BoxedView.{boxed_view};

use check_nodes::{PartFault, Typed};
use pawn_verdict::CheckFault;
use std::alloc::Global;

/// What a node comes to, in a box where it stands.
#[tactic(auto, using(check_nodes::proofs::PartLaws::parts, crate::proofs::PairLaws::pairs))]
pub fn boxed(alloc: Global, node: Result<Typed, CheckFault>) -> Result<Box<Typed>, PartFault>
    ensures answer { (v : Verdict Plain) → Answers typed_view v node →
        PartAnswers boxed_view v result }
    ensures judged { (m n : ℕ) → (m ≡ n) → Judged result (m ≡ n) }
{
    let typed = node?;
    Ok(Box::new(alloc, typed)?)
}
