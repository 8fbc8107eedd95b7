ghost use Rattle.std.specs.Prelude.{◌≡◌, [], ◌++◌, map, option_map, slice_get, position, unwrap_or};
ghost use Rattle.std.specs.Prelude.{IfOk, OnOk};
ghost use Rattle.std.specs.List.{position_from};
ghost use Rattle.pawn_states.specs.Classifier.{is_fallback};
ghost use Rattle.pawn_states.specs.Dispatch as dispatch;
ghost use Rattle.pawn_meaning.specs.View.{route_view};
ghost use Rattle.types_rules.specs.Routes as spec;
ghost use Rattle.types_rules.specs.Programs.{dispatch_by};
ghost use Rattle.check_source.specs.AutomataView.{automata_view};
ghost use Rattle.check_declarations.specs.Routed.{pairs_view, states_numbered, cases_numbered};

use check_source::Automata;
use pawn_base::{Bytes, List, Memory};
use pawn_meaning::Route;
use pawn_states::Clause;
use std::alloc::Global;

/// The number of what stands at a place.
fn told(place: usize) -> Result<u32, Memory>
    ensures { IfOk result (λ number. number ≡ place) }
{
    match u32::try_from(place) {
        Ok(number) => Ok(number),
        Err(_) => Err(Memory),
    }
}

/// The automaton that clauses name, where one does.
fn automaton_named(clauses: &[Clause]) -> Option<&[u8]>
    ensures { option_map (λ name. name.now) result ≡ dispatch.automaton_named clauses.now }
{
    for i in 0..clauses.len() {
        let clause = &clauses[i];
        if !clause.states.is_empty() {
            return Some(clause.automaton.as_slice());
        }
    }
    None
}

/// The anonymous automaton.
fn anonymous<'a>() -> &'a [u8]
    ensures { result.now ≡ [] }
{
    b""
}

/// The number of an automaton, which clauses may name: each that a source names has one.
fn number_of(automata: &Automata, name: Option<&[u8]>) -> usize
    ensures { result ≡ spec.number (automata_view automata.now)
        (unwrap_or (option_map (λ name. name.now) name.entry) []) }
{
    match name {
        None => automata.number(anonymous()).unwrap_or(0),
        Some(name) => automata.number(name).unwrap_or(0),
    }
}

/// The number of a state of the automaton with a number.
#[tactic(auto, using(crate::proofs::RouteLaws::state_is))]
fn state_place(automata: &Automata, number: usize, state: &[u8]) -> usize
    ensures { result ≡ spec.state_number (slice_get (automata_view automata.now) number) state.now }
{
    automata.state(number, state).unwrap_or(0)
}

/// With the cases of a clause, by its number.
fn push_states(
    list: &mut List<(u32, u32)>,
    automata: &Automata,
    number: usize,
    clause: u32,
    states: &[Bytes],
) -> Result<(), Memory>
    ensures { OnOk result (pairs_view list.new ≡ pairs_view list.old
        ++ states_numbered (slice_get (automata_view automata.now) number) clause states.now) }
{
    for i in 0..states.len() {
        let place = told(state_place(automata, number, states[i].as_slice()))?;
        list.push((place, clause))?;
    }
    Ok(())
}

/// The cases of clauses, each state by its number.
fn all_cases(
    alloc: Global,
    automata: &Automata,
    number: usize,
    clauses: &[Clause],
) -> Result<List<(u32, u32)>, Memory>
    ensures { IfOk result (λ list. pairs_view list ≡ cases_numbered
        (slice_get (automata_view automata.now) number) (dispatch.cases_from 0 clauses.now)) }
{
    let mut list = List::new(alloc);
    for i in 0..clauses.len() {
        let clause = told(i)?;
        push_states(
            &mut list,
            automata,
            number,
            clause,
            clauses[i].states.as_slice(),
        )?;
    }
    Ok(list)
}

/// The place of the fallback among clauses, where there is one.
fn fallback_place(clauses: &[Clause]) -> Option<usize>
    ensures { result ≡ position_from is_fallback 0 clauses.now }
{
    for i in 0..clauses.len() {
        if clauses[i].states.is_empty() {
            return Some(i);
        }
    }
    None
}

/// The number of the fallback among clauses, where there is one.
#[tactic(auto, using(crate::proofs::RouteLaws::position_is))]
fn fallback_in(clauses: &[Clause]) -> Result<Option<u32>, Memory>
    ensures { IfOk result (λ it. it ≡ position is_fallback clauses.now) }
{
    match fallback_place(clauses) {
        None => Ok(None),
        Some(place) => {
            let place = told(place)?;
            Ok(Some(place))
        }
    }
}

/// The route of clauses.
fn route_by(alloc: Global, automata: &Automata, clauses: &[Clause]) -> Result<Route, Memory>
    ensures { IfOk result (λ it. route_view it ≡
        spec.route (automata_view automata.now) clauses.now) }
{
    let number = number_of(automata, automaton_named(clauses));
    let automaton = told(number)?;
    let cases = all_cases(alloc, automata, number, clauses)?;
    let fallback = fallback_in(clauses)?;
    Ok(Route {
        automaton,
        cases,
        fallback,
    })
}

/// Which body serves which state, by the clauses of a function's bodies; a function without a
/// clause has no route (Language Guide, "State classifiers").
///
/// # Errors
///
/// `Memory` for want of memory.
pub fn route(
    alloc: Global,
    automata: &Automata,
    clauses: &[Clause],
) -> Result<Option<Route>, Memory>
    ensures { IfOk result (λ it. option_map route_view it ≡
        dispatch_by (automata_view automata.now) clauses.now) }
{
    if clauses.is_empty() {
        return Ok(None);
    }
    let route = route_by(alloc, automata, clauses)?;
    Ok(Some(route))
}
