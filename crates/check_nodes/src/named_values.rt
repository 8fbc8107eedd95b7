ghost use Rattle.std.specs.Prelude.{◌≡◌, option_map, IfOk};
ghost use Rattle.types_rules.specs.NamesAndNumbers as spec;
ghost use Rattle.types_rules.specs.Operators as operators;
ghost use Rattle.pawn_verdict.specs.Answers.{Answers};
ghost use Rattle.check_nodes.specs.ContextView.{around_view};
ghost use Rattle.check_nodes.specs.MeaningView.{meaning_view};
ghost use Rattle.check_nodes.specs.TypedView.{typed_view};

use super::context::Context;
use super::made::Made;
use super::meaning::Meaning;
use super::tags::tag_number;
use super::typed::{Form, Typed};
use pawn_base::Memory;
use pawn_meaning::Expr;
use pawn_tags::UNTAGGED;
use pawn_tree::At;
use pawn_verdict::{CheckFault, broken};
use std::alloc::Global;
use types_rules::UNDEFINED;

/// A constant with its tag.
pub fn make_constant(alloc: Global, at: At, value: i32, tag: u32) -> Result<Typed, Memory>
    ensures { IfOk result (λ x. typed_view x ≡ spec.constant_value at value tag) }
{
    let code = Box::new(alloc, Expr::Const(value))?;
    Ok(Typed {
        at,
        form: Form::Value(code),
        tag,
        value: Some(value),
        made: Made::nothing(alloc),
    })
}

/// A number or a character.
pub fn make_number(alloc: Global, at: At, value: i32) -> Result<Typed, Memory>
    ensures { IfOk result (λ x. typed_view x ≡ spec.number_rule at value) }
{
    make_constant(alloc, at, value, UNTAGGED)
}

/// A name that means a value or an array.
///
/// # Errors
///
/// 50 for a name that means neither.
pub fn name(alloc: Global, at: At, means: Option<Meaning>) -> Result<Typed, CheckFault>
    ensures { Answers typed_view (spec.name_rule at (option_map meaning_view means)) result }
{
    let (form, tag) = match means {
        Some(Meaning::Constant(value, tag)) => {
            return Ok(make_constant(alloc, at, value, tag)?);
        }
        Some(Meaning::Variable(place, tag, constant)) => {
            (Form::Place(place.scalar(), constant), tag)
        }
        Some(Meaning::Array(place, extent, tag, constant)) => {
            (Form::Whole(place.array(), extent, constant), tag)
        }
        None
        | Some(
            Meaning::Function(..) | Meaning::Native(..) | Meaning::Entering(_) | Meaning::Taken,
        ) => return Err(broken(UNDEFINED, at.place)),
    };
    Ok(Typed {
        at,
        form,
        tag,
        value: None,
        made: Made::nothing(alloc),
    })
}

/// Parentheses, which are transparent.
pub fn paren(at: At, x: Typed) -> Typed
    ensures { typed_view result ≡ operators.paren_rule at (typed_view x) }
{
    Typed { at, ..x }
}

/// A tag before an operand, which is transparent too, but for the tag.
pub fn tagged(cx: &Context, at: At, name: &[u8], x: Typed) -> Typed
    ensures { typed_view result ≡
        operators.tagged_rule (around_view cx.now) at name.now (typed_view x) }
{
    Typed {
        at,
        tag: tag_number(cx, name),
        ..x
    }
}
