ghost use Rattle.std.specs.Prelude.{◌≡◌, IfOk, map, slice_get};
ghost use Rattle.pawn_arrays.specs.Sizes.{sizes};
ghost use Rattle.pawn_meaning.specs.View.{slot_view};
ghost use Rattle.gen_sim.specs.Fits.{own_sizes};
ghost use Rattle.gen_sim.specs.PlaceItems.{cells_by};

use super::locals::Mark;
use pawn_arrays::{Shape, cells};
use pawn_base::Memory;
use pawn_meaning::{Program, Slot};
use std::alloc::Global;

/// Where the statements of a body stand: its program, its slots, of which so many are parameters,
/// the addresses of the program's objects, all their cells, behind which those of the automata
/// stand, and where memory comes from.
#[derive(Clone, Copy)]
pub struct Place<'a> {
    pub alloc: Global,
    pub program: &'a Program,
    pub slots: &'a [Slot],
    pub params: u32,
    pub objects: &'a [i32],
    pub automata: u32,
}

/// Where a statement stands in a body, and the locals with which the body of the loop around it
/// began.
#[derive(Clone, Copy)]
pub struct At<'a> {
    pub place: Place<'a>,
    pub since: Mark,
}

/// The cells of an array with its offsets, where they are within the limit of one array.
#[tactic(auto, using(crate::proofs::CellLaws::shape_cells))]
fn array_cells(shape: &Shape) -> Result<u32, Memory>
    ensures { IfOk result (λ n. n ≡ cells_by (sizes shape.now)) }
{
    match cells(shape) {
        Some(n) => Ok(n),
        None => Err(Memory),
    }
}

/// The cells that a slot takes for its own.
#[tactic(auto, using(crate::proofs::CellLaws::slots_seen))]
pub fn own_cells(s: u32, slots: &[Slot]) -> Result<u32, Memory>
    ensures { IfOk result (λ n.
        n ≡ cells_by (own_sizes (slice_get (map slot_view slots.now) s))) }
{
    match slots.get(s as usize) {
        Some(Slot::Array(shape)) => array_cells(shape),
        Some(Slot::Scalar | Slot::Reference | Slot::Open(_)) => Ok(1),
        None => Ok(1),
    }
}
