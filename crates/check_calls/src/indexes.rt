ghost use Rattle.std.specs.Prelude.{◌≡◌, [], IfOk};
ghost use Rattle.std.specs.Option.{option_to_list};
ghost use Rattle.types_rules.specs.Indexes as spec;
ghost use Rattle.types_rules.specs.Typed as typed;
ghost use Rattle.pawn_verdict.specs.Answers.{Answers};
ghost use Rattle.check_nodes.specs.CodeView.{code_view};
ghost use Rattle.check_nodes.specs.ExtentView.{extent_view};
ghost use Rattle.check_nodes.specs.TypedView.{form_view, typed_view};
ghost use Rattle.check_nodes.specs.OperandView.{operand_view};
ghost use Rattle.check_calls.specs.Held.{held_view};
ghost use Rattle.check_calls.specs.WholeView.{whole_view};

use super::wanted_array::{Held, array_held};
use check_nodes::{Extent, Form, Made, Operand, Typed, line};
use pawn_base::Memory;
use pawn_meaning::{Array, Expr, Scalar};
use pawn_tree::At;
use pawn_verdict::{CheckFault, broken};
use std::alloc::Global;
use types_rules::{ARRAY_NOT_INDEXED, INDEX_OUTSIDE};

/// Whether a constant index is outside an array of a known size. It is seen without its sign.
fn is_outside(size: Option<u64>, index: Option<i32>) -> bool
    ensures { result ≡ spec.is_outside size index }
{
    let (Some(size), Some(index)) = (size, index) else {
        return false;
    };
    match u64::try_from(index) {
        Err(_) => true,
        Ok(index) => size <= index,
    }
}

/// How far the part reaches that a first index leads to, in more than one dimension.
fn part_extent(size: u32, third: Option<u32>) -> Extent
    ensures { extent_view result ≡ spec.part_extent size (option_to_list third) }
{
    match third {
        None => line(size),
        Some(_) => Extent {
            first: Some(size),
            second: third,
            third: None,
        },
    }
}

/// An element, or a part with its own elements.
fn part(alloc: Global, held: Held, code: Box<Expr>) -> Result<Form, Memory>
    ensures { IfOk result (λ form. form_view form
        ≡ spec.indexed_part (held_view held) (code_view code) (extent_view held.extent).inner) }
{
    let array = Box::new(alloc, held.array)?;
    Ok(match held.extent.second {
        None => Form::Place(Scalar::Element(array, code), held.constant),
        Some(size) => Form::Whole(
            Array::Row(array, code),
            part_extent(size, held.extent.third),
            held.constant,
        ),
    })
}

fn size_known(extent: Extent) -> Option<u64>
    ensures { result ≡ (extent_view extent).first }
{
    match extent.first {
        None => None,
        Some(size) => Some(u64::from(size)),
    }
}

/// An array that an index leads into, with its tag and what was made and found in it.
#[derive(Drop)]
pub struct Whole {
    pub held: Held,
    pub tag: u32,
    pub made: Made,
}

/// An expression as an array that an index leads into, which the node at a token wants.
///
/// # Errors
///
/// 53 for what is no array.
fn whole_of(at: At, x: Typed) -> Result<Whole, CheckFault>
    ensures held { Answers (λ it. held_view it.held)
        (typed.array_or_broken at (typed.array_in (form_view x.form))) result }
    ensures others { IfOk result (λ it. (it.tag ≡ x.tag) × (it.made ≡ x.made)) }
{
    let held = array_held(at, x.form)?;
    Ok(Whole {
        held,
        tag: x.tag,
        made: x.made,
    })
}

/// The element, or the part, that an index leads to.
///
/// # Errors
///
/// 56 for a constant index outside.
fn reach(alloc: Global, at: At, x: Whole, i: Operand) -> Result<Typed, CheckFault>
    ensures { Answers typed_view (spec.index_in at (whole_view at x) (operand_view i)
        (held_view x.held) (code_view i.code)) result }
{
    if is_outside(size_known(x.held.extent), i.value) {
        return Err(broken(INDEX_OUTSIDE, at.place));
    }
    let form = part(alloc, x.held, i.code);
    let made = x.made.then(i.made)?;
    Ok(Typed {
        at,
        form: form?,
        tag: x.tag,
        value: None,
        made,
    })
}

/// `a[i]`
///
/// # Errors
///
/// 53 for what is no array, 54 for an array as an index, 56 for a constant index outside.
#[tactic(auto, unfolding(types_rules::specs::Indexes::index_rule), using(pawn_verdict::proofs::VerdictLaws::verdicts))]
pub fn index(alloc: Global, at: At, x: Typed, i: Typed) -> Result<Typed, CheckFault>
    ensures { Answers typed_view (spec.index_rule at (typed_view x) (typed_view i)) result }
{
    let whole = whole_of(at, x);
    let by = i.as_operand(alloc, at);
    let (whole, by) = (whole?, by?);
    reach(alloc, at, whole, by)
}

/// How many characters an array has in its first dimension, if that is known: four to a cell.
fn characters_known(extent: Extent) -> Option<u64>
    ensures { result ≡ spec.characters (extent_view extent).first }
{
    match extent.first {
        None => None,
        Some(size) => Some(4 * u64::from(size)),
    }
}

/// The character of one dimension that an index leads to.
///
/// # Errors
///
/// 56 for a constant index outside.
fn reach_character(alloc: Global, at: At, x: Whole, i: Operand) -> Result<Typed, CheckFault>
    ensures { Answers typed_view (spec.character_in at (whole_view at x) (operand_view i)
        (held_view x.held) (code_view i.code) []) result }
{
    let held = x.held;
    if is_outside(characters_known(held.extent), i.value) {
        return Err(broken(INDEX_OUTSIDE, at.place));
    }
    let made = x.made.then(i.made);
    let place = Scalar::Char(Box::new(alloc, held.array)?, i.code);
    Ok(Typed {
        at,
        form: Form::Place(place, held.constant),
        tag: x.tag,
        value: None,
        made: made?,
    })
}

/// The character that an index leads to.
///
/// # Errors
///
/// 54 for more dimensions than one, 56 for a constant index outside.
fn reach_line(alloc: Global, at: At, x: Whole, i: Operand) -> Result<Typed, CheckFault>
    ensures { Answers typed_view (spec.character_in at (whole_view at x) (operand_view i)
        (held_view x.held) (code_view i.code) (extent_view x.held.extent).inner) result }
{
    match x.held.extent.second {
        Some(_) => Err(broken(ARRAY_NOT_INDEXED, at.place)),
        None => reach_character(alloc, at, x, i),
    }
}

/// `a{i}`
///
/// # Errors
///
/// 53 for what is no array, 54 for one of more dimensions or as an index, 56 for a constant index
/// outside.
#[tactic(auto, unfolding(types_rules::specs::Indexes::character_rule), using(pawn_verdict::proofs::VerdictLaws::verdicts))]
pub fn character(alloc: Global, at: At, x: Typed, i: Typed) -> Result<Typed, CheckFault>
    ensures { Answers typed_view (spec.character_rule at (typed_view x) (typed_view i)) result }
{
    let whole = whole_of(at, x);
    let by = i.as_operand(alloc, at);
    let (whole, by) = (whole?, by?);
    reach_line(alloc, at, whole, by)
}
