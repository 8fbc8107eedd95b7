ghost use Rattle.std.specs.Prelude.{◌≡◌, ◌+◌, ◌-◌, ◌*◌, ◌^◌, ◌<◌, ◌≤◌, SomeIff, map, nat_le};
ghost use Rattle.std.specs.Prelude.{unwrap_or};
ghost use Rattle.pawn_arrays.specs.Sizes.{cell_count};
ghost use Rattle.pawn_meaning.specs.View.{program_view};
ghost use Rattle.pawn_meaning.specs.declared.program_limits.TheConstants as limit;
ghost use Rattle.pawn_meaning.specs.Limits.{data_cells};
ghost use Rattle.pawn_meaning.specs.Weight as weights;
ghost use Rattle.types_rules.specs.TypedTrees as spec;
ghost use Rattle.pawn_verdict.specs.Answers.{Answers};
ghost use Rattle.check_declarations.specs.PassedView.{passed_view};
ghost use Rattle.check_declarations.specs.ObjectCells.{cells_of_all};

use super::source_rules::first_line;
use pawn_arrays::Shape;
use pawn_meaning::{DATA_LIMIT, Object, Program, WEIGHT_LIMIT, weight};
use pawn_verdict::{CheckFault, broken};
use types_rules::{LIMIT_ARRAY, LIMIT_CODE};

/// A count of cells, where it is within the limit.
fn limited(count: u64) -> Option<u64>
    ensures { SomeIff result (count ≤ limit.DATA_LIMIT) count }
{
    if count <= DATA_LIMIT {
        Some(count)
    } else {
        None
    }
}

/// A sum with the cells of a vector more, and of the rows that its parts lead to in three
/// dimensions.
fn with_rows(sum: u64, first: u32, parts: u64, third: Option<u32>) -> Option<u64>
    requires { (sum ≤ limit.DATA_LIMIT) × (parts ≤ (2 ^ 32 - 1) * (2 ^ 32 - 1)) }
    ensures { let count = sum + (first + parts) + parts * unwrap_or third 0 in
        SomeIff result (count ≤ limit.DATA_LIMIT) count }
{
    let count = sum + u64::from(first) + parts;
    if count > DATA_LIMIT {
        return None;
    }
    match third {
        None => limited(count),
        Some(third) => limited(count + parts * u64::from(third)),
    }
}

/// A sum with the cells of one array more, where that is within the limit.
fn with_array(sum: u64, shape: &Shape) -> Option<u64>
    requires { sum ≤ limit.DATA_LIMIT }
    ensures { SomeIff result (sum + cell_count shape.now ≤ limit.DATA_LIMIT)
        (sum + cell_count shape.now) }
{
    let first = u64::from(shape.first);
    match shape.second {
        None => limited(sum + first),
        Some(second) => with_rows(sum, shape.first, first * u64::from(second), shape.third),
    }
}

/// The cells of all objects, where they are no more than the limit.
fn object_cells(objects: &[Object]) -> Option<u64>
    ensures { SomeIff result (cells_of_all objects.now ≤ limit.DATA_LIMIT)
        (cells_of_all objects.now) }
{
    let mut sum = 0;
    for i in 0..objects.len() {
        sum = with_array(sum, &objects[i].shape)?;
    }
    Some(sum)
}

/// Whether so many cells and automata are within the limit.
fn is_data(cells: u64, automata: usize) -> bool
    requires { cells ≤ limit.DATA_LIMIT }
    ensures { result ≡ nat_le (cells + automata) limit.DATA_LIMIT }
{
    automata as u64 <= DATA_LIMIT - cells
}

/// Whether the cells of the data are within the limit.
fn data_fits(program: &Program) -> bool
    ensures { result ≡ nat_le (data_cells (program_view program.now)) limit.DATA_LIMIT }
{
    match object_cells(program.objects.as_slice()) {
        None => false,
        Some(cells) => is_data(cells, program.automata.len()),
    }
}

/// Whether the weight is within the limit.
fn code_fits(program: &Program) -> bool
    ensures { result ≡ nat_le (weights.weight (program_view program.now)) limit.WEIGHT_LIMIT }
{
    weight(program) <= WEIGHT_LIMIT
}

/// The sums over a program are within their limits.
///
/// # Errors
///
/// 68 for the cells of its data, 69 for its weight, both at the source's first line.
pub fn sums_stand(program: &Program) -> Result<(), CheckFault>
    ensures { Answers passed_view
        (spec.unless (spec.sum_faults (program_view program.now))) result }
{
    if !data_fits(program) {
        return Err(broken(LIMIT_ARRAY, first_line()));
    }
    if !code_fits(program) {
        return Err(broken(LIMIT_CODE, first_line()));
    }
    Ok(())
}
