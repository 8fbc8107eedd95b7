ghost use Rattle.types_rules.specs.Typed as spec;
ghost use Rattle.pawn_verdict.specs.Answers.{Answers};
ghost use Rattle.check_nodes.specs.TypedView.{form_view};
ghost use Rattle.check_calls.specs.Held.{held_view};

use check_nodes::{Extent, Form, line};
use pawn_meaning::Array;
use pawn_tree::At;
use pawn_verdict::{CheckFault, broken};
use types_rules::NOT_AN_ARRAY;

/// An array with what is known of it.
#[derive(Drop)]
pub struct Held {
    pub array: Array,
    pub extent: Extent,
    pub constant: bool,
}

/// The array that the node at a token wants.
///
/// # Errors
///
/// 53 for what is none.
pub fn array_held(at: At, form: Form) -> Result<Held, CheckFault>
    ensures { Answers held_view (spec.array_or_broken at (spec.array_in (form_view form))) result }
{
    match form {
        Form::Value(_) => Err(broken(NOT_AN_ARRAY, at.place)),
        Form::Place(..) => Err(broken(NOT_AN_ARRAY, at.place)),
        Form::Whole(array, extent, constant) => Ok(Held {
            array,
            extent,
            constant,
        }),
        Form::Literal(object, cells) => Ok(Held {
            array: Array::Object(object),
            extent: line(cells),
            constant: false,
        }),
    }
}
