ghost use Rattle.std.specs.Prelude.{IfOk};
ghost use Rattle.pawn_meaning.specs.View.{program_view};
ghost use Rattle.gen_module.specs.HasAddresses.{HasAddresses};

use super::sizes::{address_behind, array_cells, with_cells};
use pawn_base::{Cells, Memory};
use pawn_meaning::Program;
use std::alloc::Global;

/// Where the data of a program stand: the address of each object, in their order, and how many
/// cells all of them take, behind which the automata's stand.
#[derive(Debug, Drop)]
pub struct Addresses {
    pub objects: Cells,
    pub cells: u32,
}

/// Where the objects of a program stand, in one pass.
pub fn object_addresses(alloc: Global, program: &Program) -> Result<Addresses, Memory>
    ensures { IfOk result (HasAddresses (program_view program.now)) }
{
    let objects = program.objects.as_slice();
    let mut table = Cells::new(alloc);
    let mut before = 0;
    for object in objects {
        let address = address_behind(before)?;
        table.push(address)?;
        before = with_cells(before, array_cells(&object.shape)?)?;
    }
    Ok(Addresses {
        objects: table,
        cells: before,
    })
}
