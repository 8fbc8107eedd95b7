ghost use Rattle.std.specs.Prelude.{◌≡◌, ◌++◌, map, pos, replicate, IfOk, OnOk};
ghost use Rattle.pawn_arrays.specs.Sizes.{sizes};
ghost use Rattle.pawn_meaning.specs.View.{object_view, program_view};
ghost use Rattle.pawn_meaning.specs.World.{first_memory};
ghost use Rattle.gen_sim.specs.Pieces.{vectors, image, data_pieces};
ghost use Rattle.gen_module.specs.Data.{objects_data};

use pawn_arrays::{cells, layout};
use pawn_base::{Cells, Memory};
use pawn_meaning::{Object, Program, Shape};
use std::alloc::Global;

/// The cells of a program's data as each run begins: its objects in their order, and behind them
/// its automata.
#[tactic(auto, using(crate::proofs::DataLaws::data_is))]
pub fn first_cells(alloc: Global, program: &Program) -> Result<Cells, Memory>
    ensures { IfOk result (λ it. it ≡ image (first_memory (program_view program.now))
        (data_pieces (program_view program.now))) }
{
    let objects = objects_cells(alloc, program.objects.as_slice())?;
    let all = with_automata(objects, program.automata.len())?;
    Ok(all)
}

/// The offsets of the rows of an array. No program has an array past the limit.
fn offsets(alloc: Global, shape: &Shape) -> Result<Cells, Memory>
    ensures { IfOk result (λ it. it ≡ vectors (sizes shape.now)) }
{
    match cells(shape) {
        Some(_) => layout(alloc, shape),
        None => Err(Memory),
    }
}

/// Appends an object: the offsets of its rows, and then its first cells.
fn put_object(alloc: Global, object: &Object, all: &mut Cells) -> Result<(), Memory>
    ensures { OnOk result (all.new ≡ all.old
        ++ (vectors (sizes object.now.shape) ++ object.now.first)) }
{
    let rows = offsets(alloc, &object.shape)?;
    all.append(&rows)?;
    all.append(&object.first)?;
    Ok(())
}

/// The cells of objects, one behind another.
fn objects_cells(alloc: Global, objects: &[Object]) -> Result<Cells, Memory>
    ensures { IfOk result (λ it. it ≡ objects_data (map object_view objects.now)) }
{
    let mut all = Cells::new(alloc);
    for object in objects {
        put_object(alloc, object, &mut all)?;
    }
    Ok(all)
}

/// A cell more for each of so many automata, which are in no state.
fn with_automata(objects: Cells, count: usize) -> Result<Cells, Memory>
    ensures { IfOk result (λ it. it ≡ objects ++ replicate count (pos 0)) }
{
    let mut all = objects;
    for number in 0..count {
        all.push(0)?;
    }
    Ok(all)
}
