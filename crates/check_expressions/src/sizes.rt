ghost use Rattle.std.specs.Prelude.{◌≡◌, ◌≤◌, length, map, pos, IfOk};
ghost use Rattle.names_rules.specs.Verdict.{after, both};
ghost use Rattle.pawn_tree.specs.View.{dim_view};
ghost use Rattle.types_rules.specs.Sizes as spec;
ghost use Rattle.pawn_verdict.specs.Answers.{Answers};
ghost use Rattle.check_nodes.specs.PartAnswers.{PartAnswers};
ghost use Rattle.check_nodes.specs.ContextView.{around_view};
ghost use Rattle.check_nodes.specs.Scopes.{scope_view};
ghost use Rattle.check_expressions.specs.Inner.{all_of, single, with_size};
ghost use Rattle.check_expressions.specs.ValueViews.{dimension_view, dimensions_view, given_view};
ghost use Rattle.check_expressions.specs.ValueViews.{inner_view};

use super::broken_part::part_broken;
use super::constants::constant_value;
use super::here::Here;
use check_nodes::PartFault;
use pawn_base::{List, Memory};
use pawn_tree::{At, Dim};
use pawn_verdict::{CheckFault, broken};
use std::alloc::Global;
use types_rules::{CONSTANT_NEEDED, LIMIT_ARRAY, SIZES_DIFFER};

/// How many characters stand in a packed cell.
const CHARACTERS: u32 = 4;

/// A size where one is given, and what it warns of.
#[derive(Drop)]
pub struct Dimension {
    pub size: Option<u32>,
    pub warned: List<At>,
}

/// The sizes behind the first, two at most: a third one counts behind a second one alone.
#[derive(Drop)]
pub struct Inner {
    pub second: Option<u32>,
    pub third: Option<u32>,
    pub warned: List<At>,
}

/// The first size, where it is given, and those behind it.
#[derive(Drop)]
pub struct Dimensions {
    pub first: Option<u32>,
    pub second: Option<u32>,
    pub third: Option<u32>,
    pub warned: List<At>,
}

// ---- one size

/// A size is 1 or more.
#[tactic(auto, using(crate::proofs::SizeLaws::size_given))]
fn positive_size(at: At, size: u32, warned: List<At>) -> Result<Dimension, CheckFault>
    ensures { Answers dimension_view (spec.positive_size at (pos size) warned) result }
{
    if size == 0 {
        Err(broken(LIMIT_ARRAY, at.place))
    } else {
        Ok(Dimension {
            size: Some(size),
            warned,
        })
    }
}

/// A size in cells.
fn cells_size(at: At, size: i32, warned: List<At>) -> Result<Dimension, CheckFault>
    ensures { Answers dimension_view (spec.positive_size at size warned) result }
{
    match u32::try_from(size) {
        Err(_) => Err(broken(LIMIT_ARRAY, at.place)),
        Ok(size) => positive_size(at, size, warned),
    }
}

/// A size in packed characters.
fn characters_size(at: At, characters: i32, warned: List<At>) -> Result<Dimension, CheckFault>
    ensures { Answers dimension_view
        (spec.positive_size at (spec.cells_for characters) warned) result }
{
    match u32::try_from(characters) {
        Err(_) => Err(broken(LIMIT_ARRAY, at.place)),
        Ok(count) => positive_size(at, count.div_ceil(CHARACTERS), warned),
    }
}

/// # Errors
///
/// 57 for what is no constant, 68 for a size below 1.
#[tactic(auto, using(check_nodes::proofs::PartLaws::parts))]
fn dimension_of(alloc: Global, here: Here, dim: &Dim) -> Result<Dimension, PartFault>
    ensures { PartAnswers dimension_view (spec.dimension (around_view here.entry.cx.now)
        (scope_view here.entry.scopes.now) here.entry.at (dim_view dim.now)) result }
{
    match dim {
        Dim::Open => Ok(Dimension {
            size: None,
            warned: List::new(alloc),
        }),
        Dim::Cells(e) => {
            let it = constant_value(alloc, here.cx, here.scopes, here.at, e)?;
            Ok(cells_size(here.at, it.value, it.warned)?)
        }
        Dim::Chars(e) => {
            let it = constant_value(alloc, here.cx, here.scopes, here.at, e)?;
            Ok(characters_size(here.at, it.value, it.warned)?)
        }
    }
}

// ---- those behind the first

/// A size that is given, and what it warns of.
#[derive(Drop)]
pub struct Given {
    pub size: u32,
    pub warned: List<At>,
}

/// The last size, which has to be given.
fn last_size(at: At, it: Dimension) -> Result<Given, CheckFault>
    ensures { Answers given_view (single at it.warned it.size) result }
{
    match it.size {
        None => Err(broken(CONSTANT_NEEDED, at.place)),
        Some(size) => Ok(Given {
            size,
            warned: it.warned,
        }),
    }
}

/// One size before the last one, which has to be given too.
fn both_sizes(at: At, it: Dimension, last: Given) -> Result<Inner, CheckFault>
    ensures { Answers inner_view (with_size at it.warned it.size (given_view last)) result }
{
    match it.size {
        None => Err(broken(CONSTANT_NEEDED, at.place)),
        Some(size) => {
            let mut warned = it.warned;
            warned.append(last.warned)?;
            Ok(Inner {
                second: Some(size),
                third: Some(last.size),
                warned,
            })
        }
    }
}

/// The last size of an array.
#[tactic(auto, using(check_nodes::proofs::PartLaws::parts))]
fn last_dimension(alloc: Global, here: Here, dim: &Dim) -> Result<Given, PartFault>
    ensures { PartAnswers given_view (after (spec.dimension (around_view here.entry.cx.now)
        (scope_view here.entry.scopes.now) here.entry.at (dim_view dim.now))
        (λ it. single here.entry.at it.warned it.size)) result }
{
    let it = dimension_of(alloc, here, dim)?;
    Ok(last_size(here.at, it)?)
}

/// One size behind the first.
fn one_inner(alloc: Global, here: Here, dim: &Dim) -> Result<Inner, PartFault>
    ensures { PartAnswers inner_view (after (spec.dimension (around_view here.entry.cx.now)
        (scope_view here.entry.scopes.now) here.entry.at (dim_view dim.now))
        (λ it. single here.entry.at it.warned it.size)) result }
{
    let last = last_dimension(alloc, here, dim)?;
    Ok(Inner {
        second: Some(last.size),
        third: None,
        warned: last.warned,
    })
}

/// Two sizes behind the first. Where the first of them falls, the other is judged all the same.
#[tactic(auto, using(check_nodes::proofs::PartLaws::parts))]
fn two_inner(alloc: Global, here: Here, second: &Dim, third: &Dim) -> Result<Inner, PartFault>
    ensures { PartAnswers inner_view (both (spec.dimension (around_view here.entry.cx.now)
        (scope_view here.entry.scopes.now) here.entry.at (dim_view second.now)) (after
        (spec.dimension (around_view here.entry.cx.now) (scope_view here.entry.scopes.now)
        here.entry.at (dim_view third.now)) (λ it. single here.entry.at it.warned it.size))
        (λ it more. with_size here.entry.at it.warned it.size more)) result }
{
    match dimension_of(alloc, here, second) {
        Ok(it) => {
            let last = last_dimension(alloc, here, third)?;
            Ok(both_sizes(here.at, it, last)?)
        }
        Err(PartFault::Fallen) => {
            let _last = last_dimension(alloc, here, third)?;
            Err(PartFault::Fallen)
        }
        Err(PartFault::Source { kind, place }) => Err(PartFault::Source { kind, place }),
        Err(PartFault::Memory) => Err(PartFault::Memory),
    }
}

/// The sizes behind the first.
fn sizes_behind(alloc: Global, here: Here, dims: &[Dim]) -> Result<Inner, PartFault>
    requires { length dims.now ≤ 2 }
    ensures { PartAnswers inner_view (spec.inner (around_view here.entry.cx.now)
        (scope_view here.entry.scopes.now) here.entry.at (map dim_view dims.now)) result }
{
    let count = dims.len();
    if count == 0 {
        Ok(Inner {
            second: None,
            third: None,
            warned: List::new(alloc),
        })
    } else if count == 1 {
        one_inner(alloc, here, &dims[0])
    } else {
        two_inner(alloc, here, &dims[0], &dims[1])
    }
}

// ---- all of them

/// The first size before those behind it.
fn all_sizes(it: Dimension, more: Inner) -> Result<Dimensions, Memory>
    ensures { IfOk result (λ all. dimensions_view all
        ≡ all_of (dimension_view it) (inner_view more)) }
{
    let mut warned = it.warned;
    warned.append(more.warned)?;
    Ok(Dimensions {
        first: it.size,
        second: more.second,
        third: more.third,
        warned,
    })
}

#[tactic(auto, using(check_nodes::proofs::PartLaws::parts))]
fn few_dimensions(
    alloc: Global,
    here: Here,
    dim: &Dim,
    dims: &[Dim],
) -> Result<Dimensions, PartFault>
    requires { length dims.now ≤ 2 }
    ensures { PartAnswers dimensions_view (spec.dimensions_of (around_view here.entry.cx.now)
        (scope_view here.entry.scopes.now) here.entry.at (dim_view dim.now)
        (map dim_view dims.now)) result }
{
    match dimension_of(alloc, here, dim) {
        Ok(it) => {
            let more = sizes_behind(alloc, here, dims)?;
            Ok(all_sizes(it, more)?)
        }
        Err(PartFault::Fallen) => {
            let _more = sizes_behind(alloc, here, dims)?;
            Err(PartFault::Fallen)
        }
        Err(PartFault::Source { kind, place }) => Err(PartFault::Source { kind, place }),
        Err(PartFault::Memory) => Err(PartFault::Memory),
    }
}

/// The dimensions of an array (Language Guide, "Arrays").
///
/// # Errors
///
/// 55 for more than three, 57 for what is no constant and where none but the first may be left out,
/// 68 for a size below 1.
pub fn array_dimensions(
    alloc: Global,
    here: Here,
    dim: &Dim,
    dims: &[Dim],
) -> Result<Dimensions, PartFault>
    ensures { PartAnswers dimensions_view (spec.dimensions (around_view here.entry.cx.now)
        (scope_view here.entry.scopes.now) here.entry.at (dim_view dim.now)
        (map dim_view dims.now)) result }
{
    let count = dims.len();
    if count <= 2 {
        few_dimensions(alloc, here, dim, dims)
    } else {
        Err(part_broken(SIZES_DIFFER, here.at))
    }
}
