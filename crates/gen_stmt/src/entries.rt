ghost use Rattle.std.specs.Prelude.{◌≡◌, ◌==◌, Some, find, is_some, slice_get};
ghost use Rattle.pawn_meaning.specs.View.{function_view, program_view, route_view};
ghost use Rattle.pawn_meaning.specs.Calls as spec;
ghost use Rattle.gen_sim.specs.StateCode.{entry_of};

use pawn_meaning::{Function, Program, Route};

/// Whether one of a route's pairs has a state.
#[tactic(auto, using(crate::proofs::FindLaws::found_here, crate::proofs::FindLaws::found_later, crate::proofs::FindLaws::found_nowhere))]
fn has_case(cases: &[(u32, u32)], state: u32) -> bool
    ensures { result ≡ is_some (find (λ case. case.0 == state) cases.now) }
{
    for i in 0..cases.len() {
        if cases[i].0 == state {
            return true;
        }
    }
    false
}

/// Whether a route has a body for a state of an automaton.
#[tactic(auto, using(crate::proofs::FindLaws::viewed))]
fn is_routed(route: &Route, automaton: u32, state: u32) -> bool
    ensures { result ≡ spec.serves_by (Some (route_view route.now)) automaton state }
{
    route.automaton == automaton
        && (has_case(route.cases.as_slice(), state) || route.fallback.is_some())
}

/// Whether a function has a body for a state of an automaton.
fn has_body(function: &Function, automaton: u32, state: u32) -> bool
    ensures { result ≡ spec.serves_by (function_view function.now).dispatch automaton state }
{
    match &function.dispatch {
        None => true,
        Some(route) => is_routed(route, automaton, state),
    }
}

/// Whether the function with a number has one.
#[tactic(auto, using(crate::proofs::FindLaws::functions_seen))]
fn serves(f: u32, automaton: u32, state: u32, program: &Program) -> bool
    ensures { result ≡
        spec.serves (slice_get (program_view program.now).functions f) automaton state }
{
    match program.functions.as_slice().get(f as usize) {
        None => false,
        Some(function) => has_body(function, automaton, state),
    }
}

/// The function that a switch to a state calls, where there is one.
#[tactic(auto, using(crate::proofs::FindLaws::automata_seen))]
pub fn entry(automaton: u32, state: u32, program: &Program) -> Option<u32>
    ensures { result ≡ entry_of (program_view program.now) automaton state }
{
    let f = program.automata.as_slice().get(automaton as usize)?.enter?;
    if serves(f, automaton, state, program) {
        Some(f)
    } else {
        None
    }
}
