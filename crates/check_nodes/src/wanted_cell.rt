ghost use Rattle.std.specs.Prelude.{◌≡◌};
ghost use Rattle.types_rules.specs.Typed as spec;
ghost use Rattle.pawn_verdict.specs.Answers.{Answers};
ghost use Rattle.check_nodes.specs.CodeView.{code_view};
ghost use Rattle.check_nodes.specs.ExtentView.{extent_view};
ghost use Rattle.check_nodes.specs.TypedView.{form_view};

use super::extent::Extent;
use super::typed::Form;
use pawn_meaning::Expr;
use pawn_tree::At;
use pawn_verdict::{CheckFault, broken};
use std::alloc::Global;
use types_rules::ARRAY_NOT_INDEXED;

/// The value of a part where the node at a token wants one cell.
///
/// # Errors
///
/// 54 for an array.
pub fn cell(alloc: Global, at: At, form: Form) -> Result<Box<Expr>, CheckFault>
    ensures { Answers code_view (spec.cell_in at (form_view form)) result }
{
    match form {
        Form::Value(code) => Ok(code),
        Form::Place(place, _) => Ok(Box::new(alloc, Expr::Read(place))?),
        Form::Whole(..) | Form::Literal(..) => Err(broken(ARRAY_NOT_INDEXED, at.place)),
    }
}

/// One dimension of so many cells.
pub fn line(cells: u32) -> Extent
    ensures { extent_view result ≡ spec.line cells }
{
    Extent {
        first: Some(cells),
        second: None,
        third: None,
    }
}
