ghost use Rattle.std.specs.Prelude.{◌≡◌, ◌+◌, ◌*◌, pos, IfOk};
ghost use Rattle.gen_sim.specs.StateCode.{automaton_cell};
ghost use Rattle.gen_module.specs.Source.{IsSource, program_of};

use super::addresses::Addresses;
use gen_expr::put::cell_of;
use pawn_base::Memory;
use pawn_meaning::Program;
use std::alloc::Global;

/// A program, where its data stand, and where memory comes from.
#[derive(Clone, Copy)]
pub(crate) struct Source<'a> {
    pub(crate) alloc: Global,
    pub(crate) program: &'a Program,
    pub(crate) places: &'a Addresses,
}

/// The address of an automaton's cell.
pub(crate) fn state_address(automaton: u32, source: &Source<'_>) -> Result<i32, Memory>
    requires { IsSource source.now }
    ensures { IfOk result (λ x. x ≡ pos (4 * automaton_cell (program_of source.now) automaton)) }
{
    cell_of(4 * (u64::from(source.places.cells) + u64::from(automaton)))
}
