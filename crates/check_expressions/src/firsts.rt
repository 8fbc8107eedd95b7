ghost use Rattle.std.specs.Prelude.{◌≡◌, [], ◌∷◌, map, option_map, replicate, false, pos, IfOk};
ghost use Rattle.std.specs.Prelude.{IfSome};
ghost use Rattle.std.specs.Option.{option_to_list};
ghost use Rattle.pawn_arrays.specs.Sizes.{elements_in, sizes};
ghost use Rattle.pawn_meaning.specs.View.{object_view};
ghost use Rattle.names_rules.specs.Verdict.{after};
ghost use Rattle.pawn_tree.specs.Variables.{inits};
ghost use Rattle.pawn_tree.specs.View.{expr_view, init_view};
ghost use Rattle.types_rules.specs.FirstValues as spec;
ghost use Rattle.pawn_verdict.specs.Answers.{Answers};
ghost use Rattle.check_nodes.specs.PartAnswers.{PartAnswers};
ghost use Rattle.check_nodes.specs.ContextView.{around_view};
ghost use Rattle.check_nodes.specs.TypedView.{typed_view};
ghost use Rattle.check_nodes.specs.Scopes.{scope_view};
ghost use Rattle.check_expressions.specs.Listed.{listed_by};
ghost use Rattle.check_expressions.specs.ValueViews.{first_view};

use super::broken_part::part_broken;
use super::constants::{alone, constant_value, tested_first};
use super::filling::{First, all_joined, filled, joined, with_zeros};
use super::here::Here;
use check_nodes::{Context, Form, PartFault, Typed};
use pawn_arrays::Shape;
use pawn_base::{Cells, List, Memory};
use pawn_meaning::Object;
use pawn_tags::matches;
use pawn_tree::{At, Expr, Init};
use pawn_verdict::{CheckFault, broken};
use std::alloc::Global;
use types_rules::SIZES_DIFFER;

// ---- a text

/// The cells of the first object.
#[tactic(auto, using(crate::proofs::LiteralLaws::first_object, crate::proofs::LiteralLaws::no_object))]
fn object_cells(alloc: Global, objects: &[Object]) -> Result<Cells, Memory>
    ensures { IfOk result (λ cells. cells ≡ spec.object_cells (map object_view objects.now)) }
{
    if objects.is_empty() {
        return Ok(Cells::new(alloc));
    }
    let object = &objects[0];
    Cells::from_slice(alloc, object.first.as_slice())
}

/// The cells of a literal.
fn literal_in(alloc: Global, x: &Typed) -> Result<Option<Cells>, Memory>
    ensures { IfOk result (λ cells. cells
        ≡ spec.literal_in (typed_view x.now) (typed_view x.now).form) }
{
    match &x.form {
        Form::Value(_) => Ok(None),
        Form::Place(_, _) => Ok(None),
        Form::Whole(_, _, _) => Ok(None),
        Form::Literal(_, _) => {
            let cells = object_cells(alloc, x.made.literals.as_slice())?;
            Ok(Some(cells))
        }
    }
}

/// A typed text for one dimension of so many cells.
///
/// # Errors
///
/// 55 for what is no text, and for more cells than there are.
fn text_of(
    alloc: Global,
    cx: &Context,
    at: At,
    tag: u32,
    size: u32,
    x: Typed,
) -> Result<First, CheckFault>
    ensures { Answers first_view (spec.text_by (around_view cx.now) [] at tag size (typed_view x)
        (spec.literal_in (typed_view x) (typed_view x).form)) result }
{
    match literal_in(alloc, &x)? {
        None => Err(broken(SIZES_DIFFER, at.place)),
        Some(cells) => {
            let passed = matches(&cx.tags, &[tag], x.tag);
            let made = x.made;
            let warned = tested_first(alloc, passed, x.at, made.warned)?;
            filled(at, size as usize, false, First { cells, warned })
        }
    }
}

/// A text for one dimension of so many cells.
#[tactic(auto, using(check_nodes::proofs::PartLaws::parts))]
fn text(alloc: Global, here: Here, tag: u32, size: u32, e: &Expr) -> Result<First, PartFault>
    ensures { PartAnswers first_view (spec.text (around_view here.entry.cx.now)
        (scope_view here.entry.scopes.now) here.entry.at tag size (expr_view e.now)) result }
{
    let x = alone(alloc, here.cx, here.scopes, e)?;
    Ok(text_of(alloc, here.cx, here.at, tag, size, x)?)
}

/// One value for an array, which only a text is for one dimension.
fn whole_value(
    alloc: Global,
    here: Here,
    tag: u32,
    shape: &Shape,
    e: &Expr,
) -> Result<First, PartFault>
    ensures { PartAnswers first_view (spec.whole_value (around_view here.entry.cx.now)
        (scope_view here.entry.scopes.now) here.entry.at tag (sizes shape.now)
        (expr_view e.now)) result }
{
    match shape.second {
        None => text(alloc, here, tag, shape.first, e),
        Some(_) => Err(part_broken(SIZES_DIFFER, here.at)),
    }
}

// ---- lists of cells

/// A constant of a list.
#[tactic(auto, using(check_nodes::proofs::PartLaws::parts))]
fn value_cell(alloc: Global, here: Here, tag: u32, e: &Expr) -> Result<First, PartFault>
    ensures { PartAnswers first_view (spec.value_cell (around_view here.entry.cx.now)
        (scope_view here.entry.scopes.now) here.entry.at tag (expr_view e.now)) result }
{
    let it = constant_value(alloc, here.cx, here.scopes, here.at, e)?;
    Ok(First::one(alloc, here.cx, tag, it)?)
}

/// One value of a list of cells.
///
/// # Errors
///
/// 55 for a list, 57 for what is no constant.
fn cell_of_list(alloc: Global, here: Here, tag: u32, init: &Init) -> Result<First, PartFault>
    ensures { PartAnswers first_view (spec.cell_of_list (around_view here.entry.cx.now)
        (scope_view here.entry.scopes.now) here.entry.at tag (init_view init.now)) result }
{
    match init {
        Init::Value(e) => value_cell(alloc, here, tag, e),
        Init::Braces(_, _, _) => Err(part_broken(SIZES_DIFFER, here.at)),
    }
}

fn cells_of_list(alloc: Global, here: Here, tag: u32, list: &List<Init>) -> Result<First, PartFault>
    ensures { PartAnswers first_view (spec.cells_of_list (around_view here.entry.cx.now)
        (scope_view here.entry.scopes.now) here.entry.at tag
        (inits (map init_view list.now))) result }
{
    let items = list.as_slice();
    let mut done = Some(First::nothing(alloc));
    for i in 0..items.len() {
        let value = cell_of_list(alloc, here, tag, &items[i]);
        done = joined(done, value)?;
    }
    all_joined(done)
}

/// A list for one dimension of so many cells.
#[tactic(auto, using(check_nodes::proofs::PartLaws::parts))]
fn line_of_list(
    alloc: Global,
    here: Here,
    tag: u32,
    size: u32,
    list: &List<Init>,
    goes_on: bool,
) -> Result<First, PartFault>
    ensures { PartAnswers first_view (after (spec.cells_of_list (around_view here.entry.cx.now)
        (scope_view here.entry.scopes.now) here.entry.at tag (inits (map init_view list.now)))
        (spec.filled here.entry.at size goes_on)) result }
{
    let values = cells_of_list(alloc, here, tag, list)?;
    Ok(filled(here.at, size as usize, goes_on, values)?)
}

// ---- lists of rows

/// The elements of a part of an array of two or three dimensions.
#[tactic(auto, using(crate::proofs::ElementLaws::times_one))]
fn part_elements(second: u32, third: Option<u32>) -> usize
    ensures { result ≡ elements_in (second ∷ option_to_list third) }
{
    match third {
        None => second as usize,
        Some(third) => (second as usize) * (third as usize),
    }
}

/// The elements of an array, its offsets left out.
fn elements(shape: &Shape) -> Option<usize>
    ensures { IfSome result (λ count. count ≡ elements_in (sizes shape.now)) }
{
    match shape.second {
        None => Some(shape.first as usize),
        Some(second) => {
            let part = part_elements(second, shape.third);
            (shape.first as usize).checked_mul(part)
        }
    }
}

/// The shape of the parts of an array.
fn part_of(second: u32, third: Option<u32>) -> Shape
    ensures { sizes result ≡ second ∷ option_to_list third }
{
    match third {
        None => Shape {
            first: second,
            second: None,
            third: None,
        },
        Some(_) => Shape {
            first: second,
            second: third,
            third: None,
        },
    }
}

/// The values of all rows of an array.
fn filled_rows(at: At, shape: &Shape, values: First) -> Result<First, CheckFault>
    ensures { Answers first_view
        (spec.filled at (elements_in (sizes shape.now)) false (first_view values)) result }
{
    match elements(shape) {
        None => Err(CheckFault::Memory),
        Some(count) => filled(at, count, false, values),
    }
}

/// The first cells of an array of these sizes, or of a part of one (Language Guide, "Arrays",
/// "Initialization").
///
/// # Errors
///
/// 55 for a value that isn't a text of one dimension, for more values than there are cells, for a
/// list among cells and for rows that go on; 57 for what is no constant.
#[cycle(first)]
pub fn first_cells(
    alloc: Global,
    here: Here,
    tag: u32,
    shape: &Shape,
    init: &Init,
) -> Result<First, PartFault>
    ensures { PartAnswers first_view (spec.first_cells (around_view here.entry.cx.now)
        (scope_view here.entry.scopes.now) here.entry.at tag (sizes shape.now)
        (init_view init.now)) result }
{
    match init {
        Init::Value(e) => whole_value(alloc, here, tag, shape, e),
        Init::Braces(_, list, goes_on) => { listed(alloc, here, tag, shape, list, *goes_on) }
    }
}

/// A list for an array of these sizes.
#[cycle(first)]
#[tactic(auto, using(check_nodes::proofs::PartLaws::parts))]
fn listed(
    alloc: Global,
    here: Here,
    tag: u32,
    shape: &Shape,
    list: &List<Init>,
    goes_on: bool,
) -> Result<First, PartFault>
    ensures { PartAnswers first_view (listed_by (around_view here.entry.cx.now)
        (scope_view here.entry.scopes.now) here.entry.at tag (sizes shape.now)
        (inits (map init_view list.now)) goes_on) result }
{
    match shape.second {
        None => line_of_list(alloc, here, tag, shape.first, list, goes_on),
        Some(second) => {
            if goes_on {
                return Err(part_broken(SIZES_DIFFER, here.at));
            }
            let part = part_of(second, shape.third);
            let values = rows(alloc, here, tag, &part, list)?;
            Ok(filled_rows(here.at, shape, values)?)
        }
    }
}

/// Rows of these sizes, one behind another.
#[cycle(first)]
fn rows(
    alloc: Global,
    here: Here,
    tag: u32,
    part: &Shape,
    list: &List<Init>,
) -> Result<First, PartFault>
    ensures { PartAnswers first_view (spec.rows (around_view here.entry.cx.now)
        (scope_view here.entry.scopes.now) here.entry.at tag (sizes part.now)
        (inits (map init_view list.now))) result }
{
    let items = list.as_slice();
    let mut done = Some(First::nothing(alloc));
    for i in 0..items.len() {
        let row = first_cells(alloc, here, tag, part, &items[i]);
        done = joined(done, row)?;
    }
    all_joined(done)
}

/// An array without values is zero.
fn zeros(alloc: Global, shape: &Shape) -> Result<First, Memory>
    ensures { IfOk result (λ it. first_view it
        ≡ record { cells = replicate (elements_in (sizes shape.now)) (pos 0); warned = [] }) }
{
    let Some(count) = elements(shape) else {
        return Err(Memory);
    };
    Ok(First {
        cells: with_zeros(Cells::new(alloc), count)?,
        warned: List::new(alloc),
    })
}

/// The first cells of an array, which is zero without values.
pub fn cells_or_zeros(
    alloc: Global,
    here: Here,
    tag: u32,
    shape: &Shape,
    init: &Option<Init>,
) -> Result<First, PartFault>
    ensures { PartAnswers first_view (spec.cells_or_zeros (around_view here.entry.cx.now)
        (scope_view here.entry.scopes.now) here.entry.at tag (sizes shape.now)
        (option_map init_view init.now)) result }
{
    match init {
        Some(init) => first_cells(alloc, here, tag, shape, init),
        None => Ok(zeros(alloc, shape)?),
    }
}
