ghost use Rattle.std.specs.Prelude.{ℤ, List as ListOf, [], ◌∷◌, ◌++◌, map, option_map, IfOk};
ghost use Rattle.pawn_tree.specs.View.{expr_view, dim_view, init_view};
ghost use Rattle.names_rules.specs.Sizes as spec;
ghost use Rattle.pawn_verdict.specs.Answers.{Answers};
ghost use Rattle.names_sight.specs.Means.{around_view, means_view};
ghost use Rattle.names_rules.specs.Around.{Around as PlainAround};
ghost use Rattle.names_sight.specs.Counted.{counted};
ghost use Rattle.names_sight.specs.Narrower.{AreNarrower, NarrowerSize};
ghost use Rattle.names_sight.specs.Views.{size_view};
ghost use Rattle.names_rules.specs.Verdict.{Verdict};

use super::constant_worth::worth;
use super::constants::{cell_count, text_cells};
use super::context::Context;
use super::fault::Fault;
use super::known::Size;
use pawn_base::{List, Memory};
use pawn_cells::Place;
use pawn_tree::{Dim, Expr, Init};
use pawn_verdict::CheckFault;
use std::alloc::Global;

/// What a constant expression is worth, without its tag, where a node at a place wants it.
///
/// # Errors
///
/// As those of `worth`.
#[tactic(auto, using(pawn_verdict::proofs::VerdictLaws::verdicts))]
pub fn constant_value(cx: &Context, place: Place, x: &Expr) -> Result<i32, CheckFault>
    ensures { Answers (λ value. value) (spec.constant_size (around_view cx.now) place
        (means_view cx.now) (expr_view x.now)) result }
{
    Ok(worth(cx, place, x)?.value)
}

/// A size in characters is that of the cells that hold them.
#[tactic(auto, using(pawn_verdict::proofs::VerdictLaws::verdicts))]
fn character_size(cx: &Context, place: Place, x: &Expr) -> Result<i32, CheckFault>
    ensures { Answers (λ size. size) (spec.character_size (around_view cx.now) place
        (means_view cx.now) (expr_view x.now)) result }
{
    let size = i64::from(constant_value(cx, place, x)?);
    Ok((size + 3).div_euclid(4) as i32)
}

/// A size that has to be given.
fn dim_size(cx: &Context, place: Place, x: &Dim) -> Result<i32, CheckFault>
    ensures { Answers (λ size. size) (spec.dim_size (around_view cx.now) place
        (means_view cx.now) (dim_view x.now)) result }
{
    match x {
        Dim::Open => Err(Fault::not_constant(place)),
        Dim::Cells(x) => constant_value(cx, place, x),
        Dim::Chars(x) => character_size(cx, place, x),
    }
}

// ---- variables

/// A text gives its cells, also in parentheses and behind a tag.
fn expr_gives(cx: &Context, place: Place, x: &Expr) -> Result<i32, CheckFault>
    ensures { Answers (λ size. size) (spec.expr_gives (around_view cx.now) place
        (means_view cx.now) (expr_view x.now)) result }
{
    match x {
        Expr::Text(_, bytes, packed) => match text_cells(bytes.as_slice(), *packed) {
            None => Err(CheckFault::Memory),
            Some(cells) => Ok(cells),
        },
        Expr::Paren(_, x) | Expr::Tagged(_, _, x) => expr_gives(cx, place, x),
        _ => Err(Fault::not_constant(place)),
    }
}

/// A list gives the count of its values, but none that goes on.
fn list_gives(place: Place, count: usize, goes_on: bool) -> Result<i32, CheckFault>
    ensures { (around : PlainAround) →
        Answers (λ size. size) (counted around place count goes_on) result }
{
    if goes_on {
        return Err(Fault::not_constant(place));
    }
    match cell_count(count) {
        None => Err(CheckFault::Memory),
        Some(count) => Ok(count),
    }
}

/// A first value gives the size of what it is for.
fn init_gives(cx: &Context, place: Place, x: &Init) -> Result<i32, CheckFault>
    ensures { Answers (λ size. size) (spec.init_gives (around_view cx.now) place
        (means_view cx.now) (init_view x.now)) result }
{
    match x {
        Init::Value(x) => expr_gives(cx, place, x),
        Init::Braces(_, list, goes_on) => list_gives(place, list.len(), *goes_on),
    }
}

/// The first size may be left out where a value gives it.
fn first_size(cx: &Context, place: Place, x: &Dim, init: &Option<Init>) -> Result<i32, CheckFault>
    ensures { Answers (λ size. size) (spec.first_size (around_view cx.now) place
        (means_view cx.now) (dim_view x.now) (option_map init_view init.now)) result }
{
    match x {
        Dim::Cells(x) => constant_value(cx, place, x),
        Dim::Chars(x) => character_size(cx, place, x),
        Dim::Open => match init {
            None => Err(Fault::not_constant(place)),
            Some(init) => init_gives(cx, place, init),
        },
    }
}

// ---- parameters

/// The first size of an open array is 0.
fn open_size(cx: &Context, place: Place, x: &Dim) -> Result<i32, CheckFault>
    ensures { Answers (λ size. size) (spec.open_size (around_view cx.now) place
        (means_view cx.now) (dim_view x.now)) result }
{
    match x {
        Dim::Open => Ok(0),
        Dim::Cells(x) => constant_value(cx, place, x),
        Dim::Chars(x) => character_size(cx, place, x),
    }
}

// ---- all sizes

/// A size as it is kept: why it has none counts only where it is asked for.
fn kept(size: Result<i32, CheckFault>) -> Result<Size, Memory>
    ensures { (verdict : Verdict ℤ) → Answers (λ size. size) verdict size →
        IfOk result (λ size. NarrowerSize size verdict) }
{
    match size {
        Ok(size) => Ok(Ok(size)),
        Err(CheckFault::Source { kind, place }) => Ok(Err(Fault { kind, place })),
        Err(CheckFault::Memory) => Err(Memory),
    }
}

/// The first size, alone.
fn one_size(alloc: Global, size: Result<i32, CheckFault>) -> Result<Vec<Size>, Memory>
    ensures { (verdict : Verdict ℤ) → Answers (λ size. size) verdict size →
        IfOk result (λ sizes. AreNarrower (map size_view sizes.items) (verdict ∷ [])) }
{
    let mut sizes = Vec::new(alloc);
    sizes.push(kept(size)?)?;
    Ok(sizes)
}

/// These sizes, and then those of other dimensions.
fn with_others(
    cx: &Context,
    place: Place,
    first: Vec<Size>,
    dims: &[Dim],
) -> Result<Vec<Size>, Memory>
    ensures { (verdicts : ListOf (Verdict ℤ)) →
        AreNarrower (map size_view first.items) verdicts →
        IfOk result (λ sizes. AreNarrower (map size_view sizes.items) (verdicts ++ map
        (spec.dim_size (around_view cx.now) place (means_view cx.now)) (map dim_view dims.now))) }
{
    let mut sizes = first;
    for i in 0..dims.len() {
        sizes.push(kept(dim_size(cx, place, &dims[i]))?)?;
    }
    Ok(sizes)
}

/// The sizes of a variable, the outermost first (Language Guide, "Arrays").
///
/// # Errors
///
/// `Memory` for want of memory.
pub fn variable_sizes(
    alloc: Global,
    cx: &Context,
    place: Place,
    dims: &List<Dim>,
    init: &Option<Init>,
) -> Result<Vec<Size>, Memory>
    ensures { IfOk result (λ sizes. AreNarrower (map size_view sizes.items)
        (spec.variable_sizes (around_view cx.now) place (means_view cx.now)
        (map dim_view dims.now) (option_map init_view init.now))) }
{
    match dims.as_slice() {
        [] => Ok(Vec::new(alloc)),
        [first, others @ ..] => {
            let sizes = one_size(alloc, first_size(cx, place, first, init))?;
            with_others(cx, place, sizes, others)
        }
    }
}

/// The sizes of a parameter, the outermost first; an open one is 0.
///
/// # Errors
///
/// `Memory` for want of memory.
pub fn parameter_sizes(
    alloc: Global,
    cx: &Context,
    place: Place,
    dims: &List<Dim>,
) -> Result<Vec<Size>, Memory>
    ensures { IfOk result (λ sizes. AreNarrower (map size_view sizes.items)
        (spec.parameter_sizes (around_view cx.now) place (means_view cx.now)
        (map dim_view dims.now))) }
{
    match dims.as_slice() {
        [] => Ok(Vec::new(alloc)),
        [first, others @ ..] => {
            let sizes = one_size(alloc, open_size(cx, place, first))?;
            with_others(cx, place, sizes, others)
        }
    }
}
