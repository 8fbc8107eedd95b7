ghost use Rattle.std.specs.Prelude.{◌≡◌, IfOk};
ghost use Rattle.names_rules.specs.Verdict.{Stands, after};
ghost use Rattle.types_rules.specs.Typed.{cell as plain_cell};
ghost use Rattle.types_rules.specs.Statements as spec;
ghost use Rattle.pawn_verdict.specs.Answers.{Answers};
ghost use Rattle.check_nodes.specs.TypedView.{typed_view};
ghost use Rattle.check_locals.specs.StoodView.{maybe_view, used_view};

use check_nodes::{Made, Typed, UNTAGGED, cell};
use pawn_base::Memory;
use pawn_meaning::Expr;
use pawn_tree::At;
use pawn_verdict::CheckFault;
use std::alloc::Global;

/// A value with its tag and first token, and what was made and found in it.
#[derive(Drop)]
pub struct Used {
    pub expr: Box<Expr>,
    pub tag: u32,
    pub at: At,
    pub made: Made,
}

/// A value that may be absent.
#[derive(Drop)]
pub struct Maybe {
    pub expr: Option<Box<Expr>>,
    pub made: Made,
}

impl Maybe {
    /// No value.
    pub fn absent(alloc: Global) -> Maybe
        ensures { maybe_view result ≡ spec.absent }
    {
        Maybe {
            expr: None,
            made: Made::nothing(alloc),
        }
    }

    /// A value.
    pub fn present(x: Used) -> Maybe
        ensures { maybe_view result ≡ spec.present (used_view x) }
    {
        Maybe {
            expr: Some(x.expr),
            made: x.made,
        }
    }
}

/// 0 without a tag, where no value stands.
pub fn zero_used(alloc: Global, at: At) -> Result<Used, Memory>
    ensures { IfOk result (λ x. used_view x ≡ spec.zero_used at) }
{
    let expr = Box::new(alloc, Expr::Const(0))?;
    Ok(Used {
        expr,
        tag: UNTAGGED,
        at,
        made: Made::nothing(alloc),
    })
}

/// One cell, wanted by the node that begins at a token.
///
/// # Errors
///
/// 54 for an array.
#[tactic(auto, using(pawn_verdict::proofs::VerdictLaws::verdicts))]
pub fn use_at(alloc: Global, at: At, x: Typed) -> Result<Used, CheckFault>
    ensures { Answers used_view
        (after (plain_cell at (typed_view x)) (λ e. Stands (spec.used (typed_view x) e))) result }
{
    let expr = cell(alloc, at, x.form)?;
    Ok(Used {
        expr,
        tag: x.tag,
        at: x.at,
        made: x.made,
    })
}
