ghost use Rattle.std.specs.Prelude.{Some, slice_get};
ghost use Rattle.names_rules.specs.Verdict.{Stands};
ghost use Rattle.types_rules.specs.States as spec;
ghost use Rattle.pawn_verdict.specs.Answers.{Answers};
ghost use Rattle.check_source.specs.AutomataView.{automata_view};
ghost use Rattle.check_statements.specs.StateView.{reached_view};

use check_source::Automata;
use pawn_tree::{At, StateName};
use pawn_verdict::{CheckFault, broken};
use types_rules::{UNKNOWN_AUTOMATON, UNKNOWN_STATE};

/// The numbers of an automaton and of a state of it.
#[derive(Clone, Copy, Debug, PartialEq, Eq)]
pub struct StateAt {
    pub automaton: u32,
    pub state: u32,
}

/// These numbers, where a u32 holds them.
fn numbered(automaton: usize, state: usize) -> Result<StateAt, CheckFault>
    ensures { Answers reached_view
        (Stands (record { automaton = automaton; state = state })) result }
{
    let Ok(automaton) = u32::try_from(automaton) else {
        return Err(CheckFault::Memory);
    };
    let Ok(state) = u32::try_from(state) else {
        return Err(CheckFault::Memory);
    };
    Ok(StateAt { automaton, state })
}

/// A state of the automaton with a number.
///
/// # Errors
///
/// 41 where the automaton has no such state.
fn reached_of(
    automata: &Automata,
    at: At,
    number: usize,
    state: &[u8],
) -> Result<StateAt, CheckFault>
    ensures { Answers reached_view (spec.state_of at number
        (slice_get (automata_view automata.now) number) state.now) result }
{
    match automata.state(number, state) {
        None => Err(broken(UNKNOWN_STATE, at.place)),
        Some(state) => numbered(number, state),
    }
}

/// The same of an automaton that may be missing.
fn reached_in(
    automata: &Automata,
    at: At,
    missing: u8,
    number: Option<usize>,
    state: &[u8],
) -> Result<StateAt, CheckFault>
    ensures { Answers reached_view
        (spec.reached_in at missing (automata_view automata.now) number state.now) result }
{
    match number {
        None => Err(broken(missing, at.place)),
        Some(number) => reached_of(automata, at, number, state),
    }
}

/// The state that a `state` names (Language Guide, "Automata").
///
/// # Errors
///
/// 40 where no such automaton is known, 41 where it has no such state.
pub fn reached(automata: &Automata, at: At, name: &StateName) -> Result<StateAt, CheckFault>
    ensures { Answers reached_view (spec.reached (automata_view automata.now) at name.now) result }
{
    let state = name.state.bytes.as_slice();
    match &name.automaton {
        None => {
            let number = automata.number(&[]);
            reached_in(automata, at, UNKNOWN_STATE, number, state)
        }
        Some(automaton) => {
            let number = automata.number(automaton.bytes.as_slice());
            reached_in(automata, at, UNKNOWN_AUTOMATON, number, state)
        }
    }
}
