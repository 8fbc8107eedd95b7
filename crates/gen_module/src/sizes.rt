ghost use Rattle.std.specs.Prelude.{◌≡◌, ◌+◌, ◌*◌, pos, IfOk};
ghost use Rattle.pawn_arrays.specs.Sizes.{sizes};
ghost use Rattle.gen_sim.specs.PlaceItems.{cells_by};

use gen_expr::put::cell_of;
use pawn_arrays::cells;
use pawn_base::Memory;
use pawn_meaning::Shape;

/// How many cells an array takes, with its offsets. No program has an array past the limit.
#[tactic(auto, using(crate::proofs::AddressLaws::array_size))]
pub(crate) fn array_cells(shape: &Shape) -> Result<u32, Memory>
    ensures { IfOk result (λ n. n ≡ cells_by (sizes shape.now)) }
{
    match cells(shape) {
        Some(count) => Ok(count),
        None => Err(Memory),
    }
}

/// So many cells, and others behind them.
pub(crate) fn with_cells(before: u32, cells: u32) -> Result<u32, Memory>
    ensures { IfOk result (λ n. n ≡ before + cells) }
{
    if cells <= u32::MAX - before {
        Ok(before + cells)
    } else {
        Err(Memory)
    }
}

/// The address behind so many cells.
pub(crate) fn address_behind(cells: u32) -> Result<i32, Memory>
    ensures { IfOk result (λ x. x ≡ pos (4 * cells)) }
{
    cell_of(4 * u64::from(cells))
}
