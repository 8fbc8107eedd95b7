ghost use Rattle.std.specs.Prelude.{◌≡◌, [], ◌∷◌, ◌++◌, Some, map, slice_get, filter, filter_map};
ghost use Rattle.std.specs.Prelude.{IfOk, OnOk};
ghost use Rattle.types_rules.specs.Clauses as clauses;
ghost use Rattle.pawn_states.specs.Classifier.{first_fault};
ghost use Rattle.types_rules.specs.Functions as spec;
ghost use Rattle.check_source.specs.GroupsView.{group_view};
ghost use Rattle.check_source.specs.WrittenView.{written_view};
ghost use Rattle.check_functions.specs.Clauses.{Stands, at_place, clauses_by};
ghost use Rattle.check_functions.specs.Finds.{Finds};

use check_source::{Group, Written, named_or, states_of};
use pawn_base::{Bytes, List, Memory};
use pawn_states::{Clause, StateFault, classify};
use pawn_tree::{At, StateName};
use pawn_verdict::{CheckFault, broken};
use std::alloc::Global;
use types_rules::{FALLBACK_TWICE, MIXED_AUTOMATA, STATE_TWICE};

/// The automaton that a classifier names first.
#[tactic(auto, using(crate::proofs::ClauseLaws::first_automaton))]
pub fn automaton_of(states: &[StateName]) -> &[u8]
    ensures { result.now ≡ clauses.automaton_of (clauses.items states.now) }
{
    let anonymous: &[u8] = b"";
    match states {
        [] => anonymous,
        [first, ..] => named_or(anonymous, &first.automaton),
    }
}

/// The states of a classifier.
fn states_in(alloc: Global, states: &[StateName]) -> Result<List<Bytes>, Memory>
    ensures { IfOk result (λ list. list ≡ map (λ it. it.state.bytes) states.now) }
{
    let mut list = List::new(alloc);
    for it in states {
        list.push(Bytes::from_slice(alloc, it.state.bytes.as_slice())?)?;
    }
    Ok(list)
}

/// The clause of a classifier.
#[tactic(auto, using(crate::proofs::ClauseLaws::clause_is))]
fn clause(alloc: Global, states: &[StateName]) -> Result<Clause, Memory>
    ensures { IfOk result (λ it. it ≡ clauses.clause states.now) }
{
    let automaton = Bytes::from_slice(alloc, automaton_of(states))?;
    let states = states_in(alloc, states)?;
    Ok(Clause { automaton, states })
}

/// The clauses of bodies that have a classifier, and where each stands.
#[derive(Drop)]
struct Classified {
    clauses: List<Clause>,
    places: List<At>,
}

impl Classified {
    /// With that of a body more.
    fn add(&mut self, alloc: Global, it: &Written) -> Result<(), Memory>
        ensures { OnOk result (Stands self.old self.new (written_view it.now)) }
    {
        match states_of(it.function) {
            None => Ok(()),
            Some(states) => {
                let clause = clause(alloc, states)?;
                self.clauses.push(clause)?;
                self.places.push(it.at)?;
                Ok(())
            }
        }
    }
}

/// The clauses of bodies in order.
fn collect(alloc: Global, bodies: &[Written]) -> Result<Classified, Memory>
    ensures clauses { IfOk result (λ it. it.clauses ≡
        filter_map spec.clause_of (map written_view bodies.now)) }
    ensures places { IfOk result (λ it. it.places ≡ map (λ body. body.at)
        (filter spec.has_classifier (map written_view bodies.now))) }
{
    let mut all = Classified {
        clauses: List::new(alloc),
        places: List::new(alloc),
    };
    for it in bodies {
        all.add(alloc, it)?;
    }
    Ok(all)
}

/// The clauses of a function, in the order of its bodies.
///
/// # Errors
///
/// `Memory` for want of memory.
pub fn clauses_of(alloc: Global, group: &Group) -> Result<List<Clause>, Memory>
    ensures { IfOk result (λ list. list ≡ spec.clauses (group_view group.now)) }
{
    let all = collect(alloc, group.bodies.as_slice())?;
    Ok(all.clauses)
}

/// A broken rule at the body with a number.
fn at_body(places: &[At], kind: u8, number: u32) -> Result<(), CheckFault>
    ensures { Finds (at_place kind (slice_get places.now number)) result }
{
    match places.get(number as usize) {
        None => Ok(()),
        Some(at) => Err(broken(kind, at.place)),
    }
}

/// The first fault of clauses, at the body that it names.
fn judge(alloc: Global, all: &Classified) -> Result<(), CheckFault>
    ensures { Finds (clauses_by all.now.places all.now.clauses) result }
{
    if all.clauses.len() > u32::MAX as usize {
        return Err(CheckFault::Memory);
    }
    match classify(alloc, all.clauses.as_slice()) {
        Ok(_) => Ok(()),
        Err(StateFault::Twice(number)) => at_body(all.places.as_slice(), STATE_TWICE, number),
        Err(StateFault::FallbackTwice(number)) => {
            at_body(all.places.as_slice(), FALLBACK_TWICE, number)
        }
        Err(StateFault::Mixed(number)) => at_body(all.places.as_slice(), MIXED_AUTOMATA, number),
        Err(StateFault::Memory) => Err(CheckFault::Memory),
    }
}

/// The first fault among the clauses of bodies.
pub fn all_clauses(alloc: Global, bodies: &[Written]) -> Result<(), CheckFault>
    ensures { Finds (spec.clause_faults (filter spec.has_classifier (map written_view bodies.now))
        (first_fault [] (filter_map spec.clause_of (map written_view bodies.now)))) result }
{
    let all = collect(alloc, bodies)?;
    judge(alloc, &all)
}
