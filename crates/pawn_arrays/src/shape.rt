ghost use Rattle.std.specs.Prelude.{◌≡◌, ◌+◌, ◌*◌, ◌^◌, ◌<◌, ◌≤◌, ℤ, List, IsSome, IfOk, unwrap_or};
ghost use Rattle.std.specs.Option.{SomeIff};
ghost use Rattle.pawn_arrays.specs.Sizes.{cell_count, cell_limit};
ghost use Rattle.pawn_arrays.specs.Layout.{IsLayout, row_place, part_cells, inner_place};
ghost use Rattle.pawn_arrays.specs.Layout.{inner_cells};
ghost use Rattle.pawn_arrays.specs.Vector.{HasVector};

use pawn_base::{Cells, Memory};
use std::alloc::Global;

/// The most cells that one array may take, its offsets among them.
pub const CELL_LIMIT: u32 = 1_048_576;

/// The bytes of a cell.
const CELL_BYTES: u32 = 4;

/// The sizes of an array, in elements, the outermost first (Language Guide, "Arrays"). A third size
/// counts behind a second one alone.
#[derive(Clone, Copy, Debug, PartialEq, Eq)]
pub struct Shape {
    pub first: u32,
    pub second: Option<u32>,
    pub third: Option<u32>,
}

/// How many cells an array of the shape takes, its offsets among them, where that is within the
/// limit.
pub fn cells(shape: &Shape) -> Option<u32>
    ensures { SomeIff result (cell_count shape.now ≤ cell_limit) (cell_count shape.now) }
{
    let first = u64::from(shape.first);
    match shape.second {
        None => limited(first),
        Some(second) => with_rows(first, first * u64::from(second), shape.third),
    }
}

/// The cells of a vector, of so many parts that it leads to, and of the rows that these lead to in
/// three dimensions.
fn with_rows(first: u64, parts: u64, third: Option<u32>) -> Option<u32>
    requires { first + parts < 2 ^ 64 }
    ensures { let count = first + parts + parts * unwrap_or third 0 in
        SomeIff result (count ≤ cell_limit) count }
{
    let count = first + parts;
    if count > u64::from(CELL_LIMIT) {
        return None;
    }
    match third {
        None => limited(count),
        Some(third) => limited(count + parts * u64::from(third)),
    }
}

/// A count of cells, where it is within the limit.
fn limited(count: u64) -> Option<u32>
    ensures { SomeIff result (count ≤ cell_limit) count }
{
    if count <= u64::from(CELL_LIMIT) {
        Some(count as u32)
    } else {
        None
    }
}

/// The byte place of the first cell of the part with a first index, from the array's first cell on:
/// of a row, or in three dimensions of the vector of its rows' offsets.
pub fn row(shape: &Shape, index: u32) -> u32
    requires rows { IsSome shape.now.second }
    requires limited { cell_count shape.now ≤ cell_limit }
    requires within { index < shape.now.first }
    ensures place { result ≡ row_place shape.now index }

    // The parts fill what stands behind the vector: the last one ends where their level does.
    ensures last { index + 1 ≡ shape.now.first →
        result + 4 * part_cells shape.now ≡
        4 * (shape.now.first + shape.now.first * part_cells shape.now) }
{
    CELL_BYTES * (shape.first + index * shape.second.unwrap())
}

/// The byte place of the first cell of a row of three dimensions, from the array's first cell on.
pub fn inner_row(shape: &Shape, index: u32, inner: u32) -> u32
    requires rows { IsSome shape.now.second × IsSome shape.now.third }
    requires limited { cell_count shape.now ≤ cell_limit }
    requires within { (index < shape.now.first) × (inner < part_cells shape.now) }
    ensures place { result ≡ inner_place shape.now index inner }

    // The rows fill what stands behind the vectors: the last one ends where the array does.
    ensures last { index + 1 ≡ shape.now.first → inner + 1 ≡ part_cells shape.now →
        result + 4 * inner_cells shape.now ≡ 4 * cell_count shape.now }
{
    let second = shape.second.unwrap();
    let behind = shape.first + shape.first * second;
    CELL_BYTES * (behind + (index * second + inner) * shape.third.unwrap())
}

/// The offsets of an array, in bytes, as they stand before its elements. One dimension has none.
pub fn layout(alloc: Global, shape: &Shape) -> Result<Cells, Memory>
    requires { cell_count shape.now ≤ cell_limit }
    ensures offsets { IfOk result (IsLayout shape.now) }
    ensures only { (offsets : List ℤ) → IsLayout shape.now offsets →
        IfOk result (λ given. given ≡ offsets) }
{
    let offsets = Cells::new(alloc);
    let Some(second) = shape.second else {
        return Ok(offsets);
    };
    let offsets = with_vector(offsets, shape.first, second)?;
    match shape.third {
        None => Ok(offsets),
        Some(third) => with_vector(offsets, shape.first * second, third),
    }
}

/// Appends a vector of so many offsets, which leads to as many parts of `size` cells behind it.
fn with_vector(offsets: Cells, count: u32, size: u32) -> Result<Cells, Memory>
    requires { count + count * size ≤ cell_limit }
    ensures { IfOk result (HasVector count size offsets) }
{
    let mut offsets = offsets;
    for index in 0..count {
        offsets.push((CELL_BYTES * (count - index + index * size)) as i32)?;
    }
    Ok(offsets)
}
