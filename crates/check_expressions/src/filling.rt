ghost use Rattle.std.specs.Prelude.{◌≡◌, [], ◌∷◌, ◌++◌, ◌≤◌, length, option_map, replicate, true};
ghost use Rattle.std.specs.Prelude.{pos, IfOk};
ghost use Rattle.names_rules.specs.Verdict.{Verdict};
ghost use Rattle.pawn_cells.specs.Cells as cells;
ghost use Rattle.types_rules.specs.Constants as constants;
ghost use Rattle.types_rules.specs.FirstValues as spec;
ghost use Rattle.pawn_verdict.specs.Answers.{Answers};
ghost use Rattle.check_nodes.specs.ContextView.{around_view};
ghost use Rattle.check_nodes.specs.PartAnswers.{PartAnswers};
ghost use Rattle.check_expressions.specs.GoingOn.{before_in, last_in, step_in};
ghost use Rattle.check_expressions.specs.Joined.{joined_by, stood_by};
ghost use Rattle.check_expressions.specs.ValueViews.{constant_view, first_view};

use super::constants::{Constant, constant_warned};
use check_nodes::{Context, PartFault};
use pawn_base::{Cells, List, Memory};
use pawn_cells::Cell;
use pawn_tree::At;
use pawn_verdict::{CheckFault, broken};
use std::alloc::Global;
use types_rules::SIZES_DIFFER;

/// First cells, and what their values warn of.
#[derive(Drop)]
pub struct First {
    pub cells: Cells,
    pub warned: List<At>,
}

impl First {
    /// No cell.
    pub fn nothing(alloc: Global) -> First
        ensures { first_view result ≡ spec.no_cells }
    {
        First {
            cells: Cells::new(alloc),
            warned: List::new(alloc),
        }
    }

    /// The cell that a constant is, and what it warns of where it goes to a target of a tag.
    pub fn one(alloc: Global, cx: &Context, tag: u32, it: Constant) -> Result<First, Memory>
        ensures { IfOk result (λ first. first_view first ≡ record {
          cells = it.value ∷ [];
          warned = constants.constant_warned (around_view cx.now) tag (constant_view it);
        }) }
    {
        let mut cells = Cells::new(alloc);
        cells.push(it.value)?;
        let warned = constant_warned(alloc, cx, tag, it)?;
        Ok(First { cells, warned })
    }

    /// These, and those behind them.
    pub fn then(self, more: First) -> Result<First, Memory>
        ensures { IfOk result (λ both. first_view both
            ≡ spec.first_behind (first_view self) (first_view more)) }
    {
        let First {
            mut cells,
            mut warned,
        } = self;
        cells.append(&more.cells)?;
        warned.append(more.warned)?;
        Ok(First { cells, warned })
    }
}

// ---- values one behind another

/// Values, and one more behind them.
fn with_next(done: First, next: First) -> Result<Option<First>, Memory>
    ensures { IfOk result (λ both. option_map first_view both
        ≡ Some (spec.first_behind (first_view done) (first_view next))) }
{
    let both = done.then(next)?;
    Ok(Some(both))
}

/// The same where None says that a value before it has fallen.
fn beside(done: Option<First>, next: First) -> Result<Option<First>, Memory>
    ensures { IfOk result (λ both. option_map first_view both ≡ option_map
        (λ it. spec.first_behind it (first_view next)) (option_map first_view done)) }
{
    match done {
        None => Ok(None),
        Some(done) => with_next(done, next),
    }
}

/// What the next value answers, behind those that stand, or None where one has fallen: those behind
/// it are judged all the same.
///
/// # Errors
///
/// What breaks a rule in the next value.
pub fn joined(
    done: Option<First>,
    next: Result<First, PartFault>,
) -> Result<Option<First>, PartFault>
    ensures { (v : Verdict spec.First) → PartAnswers first_view v next → PartAnswers
        (λ it. option_map first_view it) (joined_by (option_map first_view done) v) result }
{
    match next {
        Ok(next) => Ok(beside(done, next)?),
        Err(PartFault::Fallen) => Ok(None),
        Err(PartFault::Source { kind, place }) => Err(PartFault::Source { kind, place }),
        Err(PartFault::Memory) => Err(PartFault::Memory),
    }
}

/// All values, where none has fallen.
pub fn all_joined(done: Option<First>) -> Result<First, PartFault>
    ensures { PartAnswers first_view (stood_by (option_map first_view done)) result }
{
    match done {
        None => Err(PartFault::Fallen),
        Some(done) => Ok(done),
    }
}

// ---- how a list goes on

/// So many zeros behind cells.
pub fn with_zeros(cells: Cells, count: usize) -> Result<Cells, Memory>
    ensures { IfOk result (λ all. all ≡ cells ++ replicate count (pos 0)) }
{
    let mut all = cells;
    for _ in 0..count {
        all.push(0)?;
    }
    Ok(all)
}

/// So many further values behind cells, each by the same step from the one before.
fn with_further(cells: Cells, count: usize, last: i32, step: i32) -> Result<Cells, Memory>
    ensures { IfOk result (λ all. all ≡ cells ++ spec.further count last step) }
{
    let mut all = cells;
    let mut value = last;
    for _ in 0..count {
        value = Cell(value).add(Cell(step)).0;
        all.push(value)?;
    }
    Ok(all)
}

/// The last of values.
#[tactic(auto, using(crate::proofs::GoingOnLaws::last_at))]
fn last_value(values: &[i32]) -> i32
    requires { 1 ≤ length values.now }
    ensures { result ≡ last_in values.now }
{
    values[values.len() - 1]
}

/// The value before the last one.
#[tactic(auto, using(crate::proofs::GoingOnLaws::before_at))]
fn value_before(values: &[i32]) -> i32
    requires { 2 ≤ length values.now }
    ensures { result ≡ before_in values.now }
{
    values[values.len() - 2]
}

fn difference(last: i32, before: i32) -> i32
    ensures { result ≡ cells.sub last before }
{
    Cell(last).sub(Cell(before)).0
}

/// The difference of the last two values, of one value none.
#[tactic(auto, using(crate::proofs::GoingOnLaws::no_step))]
fn last_step(values: &[i32]) -> i32
    requires { 1 ≤ length values.now }
    ensures { result ≡ step_in values.now }
{
    if values.len() == 1 {
        return 0;
    }
    difference(last_value(values), value_before(values))
}

/// So many cells behind values that go on by `...`: by the difference of the last two, and behind
/// none by zeros.
#[tactic(auto, using(crate::proofs::GoingOnLaws::none_goes_on, crate::proofs::GoingOnLaws::goes_on_from))]
fn going_on(values: Cells, count: usize) -> Result<Cells, Memory>
    ensures { IfOk result (λ all. all ≡ values ++ spec.missing true values count) }
{
    let given = values.len();
    if given == 0 {
        return with_zeros(values, count);
    }
    let (last, step) = (last_value(values.as_slice()), last_step(values.as_slice()));
    with_further(values, count, last, step)
}

/// As many cells as a size says: behind the values zeros, or where `...` stands behind them the
/// values that go on.
fn filled_to(size: usize, goes_on: bool, values: Cells) -> Result<Cells, Memory>
    ensures { IfOk result (λ all. all ≡ spec.filled_to size goes_on values) }
{
    let missing = size.saturating_sub(values.len());
    if goes_on {
        going_on(values, missing)
    } else {
        with_zeros(values, missing)
    }
}

/// Values for so many cells.
///
/// # Errors
///
/// 55 for more values than there are cells.
pub fn filled(at: At, size: usize, goes_on: bool, it: First) -> Result<First, CheckFault>
    ensures { Answers first_view (spec.filled at size goes_on (first_view it)) result }
{
    if it.cells.len() > size {
        return Err(broken(SIZES_DIFFER, at.place));
    }
    Ok(First {
        cells: filled_to(size, goes_on, it.cells)?,
        warned: it.warned,
    })
}
