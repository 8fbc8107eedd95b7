ghost use Rattle.std.specs.Prelude.{◌≡◌, length, map, option_map};
ghost use Rattle.pawn_arrays.specs.Sizes.{inner_sizes, sizes};
ghost use Rattle.pawn_meaning.specs.View.{object_view};
ghost use Rattle.names_rules.specs.Verdict.{Stands};
ghost use Rattle.pawn_tree.specs.View.{dim_view, init_view};
ghost use Rattle.types_rules.specs.Arrays as spec;
ghost use Rattle.types_rules.specs.FirstValues.{literal_in, object_cells};
ghost use Rattle.types_rules.specs.Sizes as plain;
ghost use Rattle.pawn_verdict.specs.Answers.{Answers};
ghost use Rattle.check_nodes.specs.PartAnswers.{PartAnswers};
ghost use Rattle.check_nodes.specs.ContextView.{around_view};
ghost use Rattle.check_nodes.specs.TypedView.{typed_view};
ghost use Rattle.check_nodes.specs.Scopes.{scope_view};
ghost use Rattle.check_expressions.specs.Counted.{counted, size_by, text_by};
ghost use Rattle.check_expressions.specs.ValueViews.{array_value_view, shaped_view};

use super::broken_part::part_broken;
use super::constants::alone;
use super::firsts::cells_or_zeros;
use super::here::Here;
use super::sizes::{Dimensions, array_dimensions};
use check_nodes::{Context, Form, PartFault, Scopes, Typed};
use pawn_arrays::{Shape, cells};
use pawn_base::{Cells, List};
use pawn_meaning::Object;
use pawn_tree::{At, Dim, Init};
use pawn_verdict::{CheckFault, broken};
use std::alloc::Global;
use types_rules::{CONSTANT_NEEDED, LIMIT_ARRAY, SIZES_DIFFER};

/// The sizes of an array, and what they warn of.
#[derive(Drop)]
pub struct Shaped {
    pub shape: Shape,
    pub warned: List<At>,
}

/// An array with its first cells, and what its sizes and values warn of, in token order.
#[derive(Drop)]
pub struct ArrayValue {
    pub shape: Shape,
    pub cells: Cells,
    pub warned: List<At>,
}

// ---- the first size from the values

/// How many cells the first object has.
#[tactic(auto, using(crate::proofs::LiteralLaws::first_object, crate::proofs::LiteralLaws::no_object))]
fn object_size(objects: &[Object]) -> usize
    ensures { result ≡ length (object_cells (map object_view objects.now)) }
{
    if objects.is_empty() {
        return 0;
    }
    let object = &objects[0];
    object.first.len()
}

/// How many cells a literal has.
fn literal_size(x: &Typed) -> Option<usize>
    ensures { result ≡ option_map length (literal_in (typed_view x.now) (typed_view x.now).form) }
{
    match &x.form {
        Form::Value(_) => None,
        Form::Place(_, _) => None,
        Form::Whole(_, _, _) => None,
        Form::Literal(_, _) => Some(object_size(x.made.literals.as_slice())),
    }
}

/// A count of cells as a size.
fn size_of(count: usize) -> Result<u32, PartFault>
    ensures { PartAnswers (λ size. size) (Stands count) result }
{
    match u32::try_from(count) {
        Err(_) => Err(PartFault::Memory),
        Ok(size) => Ok(size),
    }
}

/// A text gives the size of one dimension alone.
///
/// # Errors
///
/// 57 for what is no text, 55 for more dimensions.
fn text_size(at: At, second: Option<u32>, cells: Option<usize>) -> Result<u32, PartFault>
    ensures { PartAnswers (λ size. size) (size_by at second cells) result }
{
    match cells {
        None => Err(part_broken(CONSTANT_NEEDED, at)),
        Some(count) => match second {
            None => size_of(count),
            Some(_) => Err(part_broken(SIZES_DIFFER, at)),
        },
    }
}

/// A list gives the count of its values where it doesn't go on.
///
/// # Errors
///
/// 57 for a list that goes on.
fn list_size(at: At, count: usize, goes_on: bool) -> Result<u32, PartFault>
    ensures { PartAnswers (λ size. size) (counted at count goes_on) result }
{
    if goes_on {
        Err(part_broken(CONSTANT_NEEDED, at))
    } else {
        size_of(count)
    }
}

/// A typed value gives the first size where it is a text.
fn value_size(at: At, second: Option<u32>, third: Option<u32>, x: &Typed) -> Result<u32, PartFault>
    ensures { PartAnswers (λ size. size) (text_by at (inner_sizes second third)
        (literal_in (typed_view x.now) (typed_view x.now).form)) result }
{
    text_size(at, second, literal_size(x))
}

/// The first size from the values.
///
/// # Errors
///
/// 55 for a text beside more dimensions, 57 for what gives no size.
#[tactic(auto, using(check_nodes::proofs::PartLaws::parts))]
fn size_from(
    alloc: Global,
    cx: &Context,
    scopes: &Scopes,
    at: At,
    it: &Dimensions,
    init: &Init,
) -> Result<u32, PartFault>
    ensures { PartAnswers (λ size. size) (spec.size_from (around_view cx.now)
        (scope_view scopes.now) at (inner_sizes it.now.second it.now.third) (init_view init.now))
        result }
{
    match init {
        Init::Value(e) => {
            let x = alone(alloc, cx, scopes, e)?;
            value_size(at, it.second, it.third, &x)
        }
        Init::Braces(_, list, goes_on) => list_size(at, list.len(), *goes_on),
    }
}

/// The first size, which is given, or comes from the values.
///
/// # Errors
///
/// 55 for a text beside more dimensions, 57 for what gives no size.
fn first_size(
    alloc: Global,
    cx: &Context,
    scopes: &Scopes,
    at: At,
    it: &Dimensions,
    init: &Option<Init>,
) -> Result<u32, PartFault>
    ensures { PartAnswers (λ size. size) (spec.first_size (around_view cx.now)
        (scope_view scopes.now) at (inner_sizes it.now.second it.now.third) it.now.first
        (option_map init_view init.now)) result }
{
    match it.first {
        Some(size) => Ok(size),
        None => match init {
            None => Err(part_broken(CONSTANT_NEEDED, at)),
            Some(init) => size_from(alloc, cx, scopes, at, it, init),
        },
    }
}

// ---- the whole

/// A shape that isn't too large.
///
/// # Errors
///
/// 68 for more cells than any array has.
pub fn within(at: At, shape: Shape) -> Result<Shape, CheckFault>
    ensures { Answers sizes (plain.within at (sizes shape)) result }
{
    match cells(&shape) {
        None => Err(broken(LIMIT_ARRAY, at.place)),
        Some(_) => Ok(shape),
    }
}

/// The sizes of an array with these dimensions, of which there is a first one, and values (Language
/// Guide, "Arrays").
///
/// # Errors
///
/// 55, 57 and 68 as the dimensions and the first size; 68 for more cells than any array has.
#[tactic(auto, using(check_nodes::proofs::PartLaws::parts))]
pub fn array_shape(
    alloc: Global,
    cx: &Context,
    scopes: &Scopes,
    at: At,
    dim: &Dim,
    dims: &[Dim],
    init: &Option<Init>,
) -> Result<Shaped, PartFault>
    ensures { PartAnswers shaped_view (spec.shaped (around_view cx.now) (scope_view scopes.now) at
        (dim_view dim.now) (map dim_view dims.now)
        (option_map init_view init.now)) result }
{
    let it = array_dimensions(alloc, Here { cx, scopes, at }, dim, dims)?;
    let first = first_size(alloc, cx, scopes, at, &it, init)?;
    let shape = Shape {
        first,
        second: it.second,
        third: it.third,
    };
    let shape = within(at, shape)?;
    Ok(Shaped {
        shape,
        warned: it.warned,
    })
}

/// An array of a tag with these dimensions, of which there is a first one, and values (Language
/// Guide, "Arrays").
///
/// # Errors
///
/// 55, 57 and 68 as its sizes and first cells.
#[tactic(auto, using(check_nodes::proofs::PartLaws::parts))]
pub fn array_value(
    alloc: Global,
    cx: &Context,
    scopes: &Scopes,
    at: At,
    tag: u32,
    dim: &Dim,
    dims: &[Dim],
    init: &Option<Init>,
) -> Result<ArrayValue, PartFault>
    ensures { PartAnswers array_value_view (spec.array_value (around_view cx.now)
        (scope_view scopes.now) at tag (dim_view dim.now) (map dim_view dims.now)
        (option_map init_view init.now)) result }
{
    let it = array_shape(alloc, cx, scopes, at, dim, dims, init)?;
    let here = Here { cx, scopes, at };
    let values = cells_or_zeros(alloc, here, tag, &it.shape, init)?;
    let mut warned = it.warned;
    warned.append(values.warned)?;
    Ok(ArrayValue {
        shape: it.shape,
        cells: values.cells,
        warned,
    })
}
