ghost use Rattle.std.specs.Prelude.{◌≡◌, [], Some};
ghost use Rattle.types_rules.specs.Clauses as clauses;
ghost use Rattle.types_rules.specs.Keys as spec;
ghost use Rattle.check_source.specs.KeyView.{states_view};

use pawn_tree::{Function, Name, StateName};

/// The classifier behind a function's head, where it has one (Language Guide, "State classifiers").
pub fn states_of<'a>(function: &'a Function) -> Option<&'a [StateName]>
    ensures { states_view result ≡ function.now.states }
{
    match &function.states {
        None => None,
        Some(states) => Some(states.as_slice()),
    }
}

/// The automaton that a state names, else the one before it.
pub fn named_or<'a>(last: &'a [u8], name: &'a Option<Name>) -> &'a [u8]
    ensures { result.now ≡ clauses.named_or last.now name.now }
{
    match name {
        None => last,
        Some(name) => name.bytes.as_slice(),
    }
}

/// The anonymous automaton.
fn anonymous<'a>() -> &'a [u8]
    ensures { result.now ≡ [] }
{
    b""
}

/// The automaton of the entry function with a classifier; a fallback is of the one that is given.
pub fn entered<'a>(fallback: &'a [u8], states: Option<&'a [StateName]>) -> &'a [u8]
    ensures { result.now ≡ spec.entered_automaton fallback.now (states_view states.entry) }
{
    match states {
        None => anonymous(),
        Some(states) => entered_by(fallback, states),
    }
}

/// The automaton of the entry function with these states.
#[tactic(auto, using(crate::proofs::KeyLaws::entered_first))]
fn entered_by<'a>(fallback: &'a [u8], states: &'a [StateName]) -> &'a [u8]
    ensures { result.now ≡ spec.entered_automaton fallback.now (Some states.now) }
{
    match states {
        [] => fallback,
        [first, ..] => named_or(anonymous(), &first.automaton),
    }
}
