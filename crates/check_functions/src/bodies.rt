ghost use Rattle.std.specs.Prelude.{◌≡◌, false, not, map};
ghost use Rattle.std.specs.List.{list_any};
ghost use Rattle.std.specs.Str.{bytes_eq};
ghost use Rattle.types_rules.specs.Clauses as clauses;
ghost use Rattle.types_rules.specs.Functions as spec;
ghost use Rattle.check_source.specs.WrittenView.{written_view};
ghost use Rattle.check_functions.specs.Finds.{Finds};
ghost use Rattle.check_functions.specs.Bare.{bare_by, states_by, bodies_by};

use super::rules::fault_if;
use check_source::{Written, named_or, states_of};
use pawn_tree::StateName;
use pawn_verdict::CheckFault;
use types_rules::{MIXED_AUTOMATA, REDEFINED};

/// Whether a body has a classifier.
pub fn has_classifier(it: &Written) -> bool
    ensures { result ≡ spec.has_classifier (written_view it.now) }
{
    it.function.states.is_some()
}

/// Whether one of some bodies has a classifier.
pub fn some_classified(bodies: &[Written]) -> bool
    ensures { result ≡ list_any spec.has_classifier (map written_view bodies.now) }
{
    for it in bodies {
        if has_classifier(it) {
            return true;
        }
    }
    false
}

/// Whether one classifier names several automata.
pub fn is_mixed(states: &[StateName]) -> bool
    ensures { result ≡ clauses.is_mixed states.now }
{
    match states {
        [] => false,
        [first, ..] => {
            let anonymous: &[u8] = b"";
            names_other(named_or(anonymous, &first.automaton), states)
        }
    }
}

/// Whether a state is of another automaton than this.
fn names_other(first: &[u8], states: &[StateName]) -> bool
    ensures { result ≡ list_any (λ it. not (bytes_eq it.automaton first.now))
        (clauses.items states.now) }
{
    let mut last: &[u8] = b"";
    for it in states {
        last = named_or(last, &it.automaton);
        if last != first {
            return true;
        }
    }
    false
}

/// A body by itself, in a function that has classifiers or is an entry function, behind a body
/// without one or not.
#[tactic(auto, using(crate::proofs::FindsLaws::finds))]
fn bare(it: &Written, classified: bool, again: bool) -> Result<(), CheckFault>
    ensures { Finds (bare_by classified again (written_view it.now)) result }
{
    fault_if(classified, MIXED_AUTOMATA, it.at)?;
    fault_if(again, REDEFINED, it.at)
}

/// A body by its classifier.
fn body(it: &Written, classified: bool, again: bool) -> Result<(), CheckFault>
    ensures { Finds (states_by classified again (written_view it.now)
        (written_view it.now).function.states) result }
{
    match states_of(it.function) {
        None => bare(it, classified, again),
        Some(states) => fault_if(is_mixed(states), MIXED_AUTOMATA, it.at),
    }
}

/// All bodies of a function that has classifiers or is an entry function, or not.
pub fn all_bodies(bodies: &[Written], classified: bool) -> Result<(), CheckFault>
    ensures { Finds (bodies_by classified false (map written_view bodies.now)) result }
{
    let mut again = false;
    for it in bodies {
        body(it, classified, again)?;
        again = again || !has_classifier(it);
    }
    Ok(())
}
