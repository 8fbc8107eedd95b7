ghost use Rattle.std.specs.Prelude.{◌≡◌, [], Some, map};
ghost use Rattle.types_rules.specs.Groups as spec;
ghost use Rattle.check_source.specs.KeyView.{states_view};
ghost use Rattle.check_source.specs.Distinct.{distinct_view, with_distinct, states_distinct};
ghost use Rattle.check_source.specs.Distinct.{body_distinct, only_of};
ghost use Rattle.check_source.specs.WrittenView.{written_view};

use super::key::is_entry;
use super::states::{named_or, states_of};
use super::written::Written;
use pawn_tree::StateName;

/// The automata that some bodies name: none, one, or several.
#[derive(Clone, Copy)]
enum Distinct<'a> {
    Nothing,
    One(&'a [u8]),
    Several,
}

/// The anonymous automaton.
fn anonymous<'a>() -> &'a [u8]
    ensures { result.now ≡ [] }
{
    b""
}

impl<'a> Distinct<'a> {
    /// With an automaton more.
    fn with(self, name: &'a [u8]) -> Distinct<'a>
        ensures { distinct_view result ≡ with_distinct (distinct_view self.entry) name.now }
    {
        match self {
            Distinct::Nothing => Distinct::One(name),
            Distinct::One(known) => {
                if name == known {
                    self
                } else {
                    Distinct::Several
                }
            }
            Distinct::Several => self,
        }
    }

    /// With that of a classifier, where it names states.
    fn with_states(self, states: Option<&'a [StateName]>) -> Distinct<'a>
        ensures { distinct_view result ≡
            states_distinct (distinct_view self.entry) (states_view states.entry) }
    {
        match states {
            None => self,
            Some(states) => self.with_first(states),
        }
    }

    /// With that of the first of these states.
    #[tactic(auto, using(crate::proofs::DistinctLaws::first_distinct))]
    fn with_first(self, states: &'a [StateName]) -> Distinct<'a>
        ensures { distinct_view result ≡
            states_distinct (distinct_view self.entry) (Some states.now) }
    {
        match states {
            [] => self,
            [first, ..] => self.with(named_or(anonymous(), &first.automaton)),
        }
    }

    /// With that of a body, where it is an entry function's.
    fn with_body(self, it: &Written<'a>) -> Distinct<'a>
        ensures { distinct_view result ≡
            body_distinct (distinct_view self.entry) (written_view it.now) }
    {
        if is_entry(&it.function.head.name) {
            self.with_states(states_of(it.function))
        } else {
            self
        }
    }

    /// The automaton that is named alone.
    fn only(self) -> &'a [u8]
        ensures { result.now ≡ only_of (distinct_view self.entry) }
    {
        match self {
            Distinct::Nothing | Distinct::Several => anonymous(),
            Distinct::One(name) => name,
        }
    }
}

/// The automaton of an entry function's fallback: the one that all entry functions name, or the
/// anonymous one where they name none or several.
pub fn entry_fallback<'a>(bodies: &[Written<'a>]) -> &'a [u8]
    ensures { result.now ≡
        spec.only_one (spec.entry_automata [] (map written_view bodies.now)) }
{
    let mut found = Distinct::Nothing;
    for it in bodies {
        found = found.with_body(it);
    }
    found.only()
}
