ghost use Rattle.std.specs.Prelude.{OnOk};
ghost use Rattle.gen_module.specs.Few.{AreFew};

use pawn_base::Memory;
use pawn_meaning::Automaton;

/// Cells can number the states of each automaton. Where there are more, no memory holds them.
pub(crate) fn states_fit(automata: &[Automaton]) -> Result<(), Memory>
    ensures { OnOk result (AreFew automata.now) }
{
    for automaton in automata {
        if automaton.states.len() >= 2_147_483_648 {
            return Err(Memory);
        }
    }
    Ok(())
}
