ghost use Rattle.std.specs.Prelude.{◌≡◌, [], None, Some, map, IfOk, OnOk};
ghost use Rattle.types_rules.specs.Automata as spec;
ghost use Rattle.types_rules.specs.Clauses.{items};
ghost use Rattle.types_rules.specs.Groups.{body_key, number_of};
ghost use Rattle.types_rules.specs.Keys as keys;
ghost use Rattle.check_source.specs.AutomataView.{automata_view};
ghost use Rattle.check_source.specs.WrittenView.{written_view};
ghost use Rattle.check_source.specs.GroupsView.{groups_view};
ghost use Rattle.check_source.specs.Naming.{IsKnown};

use super::automata::{Automata, KnownAutomaton};
use super::groups::{Groups, body_key};
use super::key::Key;
use super::naming::{at, naming};
use super::states::{named_or, states_of};
use super::written::Written;
use pawn_base::Memory;
use pawn_tags::TagTable;
use pawn_tree::StateName;
use std::alloc::Global;

/// What is known of a source before its automata.
#[derive(Drop)]
pub struct Known<'s, 'a> {
    pub alloc: Global,
    pub tags: &'s TagTable,
    pub fallback: &'a [u8],
    pub groups: &'s Groups<'a>,
    /// Of each function, whether one of its bodies names states.
    pub naming: Vec<bool>,
}

/// Whether another body of a body's function names states.
fn has_other(known: &Known, it: &Written) -> bool
    requires { IsKnown known.now }
    ensures { result ≡ spec.has_other known.now.tags.now known.now.fallback.now
        (groups_view known.now.groups.now)
        (body_key known.now.tags.now known.now.fallback.now (written_view it.now)) }
{
    let number = known
        .groups
        .number_of(body_key(known.tags, known.fallback, it));
    at(known.naming.as_slice(), number)
}

/// The states of a classifier, each of its automaton.
fn add_items(alloc: Global, automata: &mut Automata, states: &[StateName]) -> Result<(), Memory>
    ensures { OnOk result (automata_view automata.new ≡
        spec.with_items (automata_view automata.old) (items states.now)) }
{
    let mut last: &[u8] = b"";
    for it in states {
        last = named_or(last, &it.automaton);
        automata.add(alloc, last, it.state.bytes.as_slice())?;
    }
    Ok(())
}

impl<'s, 'a> Known<'s, 'a> {
    /// The anonymous automaton, where a fallback is the only clause of its function.
    fn add_fallback(&self, automata: &mut Automata, it: &Written) -> Result<(), Memory>
        requires { IsKnown self.now }
        ensures { OnOk result (automata_view automata.new ≡
            spec.with_fallback self.now.tags.now self.now.fallback.now
            (groups_view self.now.groups.now)
            (automata_view automata.old) (written_view it.now)) }
    {
        if has_other(self, it) {
            return Ok(());
        }
        let anonymous: &[u8] = b"";
        automata.mention(self.alloc, anonymous)
    }

    /// What a classifier with these states names.
    #[tactic(auto, using(crate::proofs::ClassifiedLaws::some_states))]
    fn add_states(
        &self,
        automata: &mut Automata,
        it: &Written,
        states: &[StateName],
    ) -> Result<(), Memory>
        requires { IsKnown self.now }
        ensures { OnOk result (automata_view automata.new ≡
            spec.with_classifier self.now.tags.now self.now.fallback.now
            (groups_view self.now.groups.now)
            (automata_view automata.old) (written_view it.now) (Some states.now)) }
    {
        match states {
            [] => self.add_fallback(automata, it),
            [_, ..] => add_items(self.alloc, automata, states),
        }
    }

    /// What the classifier of a body names.
    fn add_body(&self, automata: &mut Automata, it: &Written) -> Result<(), Memory>
        requires { IsKnown self.now }
        ensures { OnOk result (automata_view automata.new ≡
            spec.with_classifier self.now.tags.now self.now.fallback.now
            (groups_view self.now.groups.now)
            (automata_view automata.old) (written_view it.now)
            (written_view it.now).function.states) }
    {
        match states_of(it.function) {
            None => Ok(()),
            Some(states) => self.add_states(automata, it, states),
        }
    }
}

/// The automata and states that bodies name, in order.
#[tactic(auto, unfolding(types_rules::specs::Automata::classified))]
fn classified(known: &Known, bodies: &[Written]) -> Result<Automata, Memory>
    requires { IsKnown known.now }
    ensures { IfOk result (λ automata. automata_view automata ≡
        spec.classified known.now.tags.now known.now.fallback.now
        (groups_view known.now.groups.now) [] (map written_view bodies.now)) }
{
    let mut automata = Automata::new(known.alloc);
    for it in bodies {
        known.add_body(&mut automata, it)?;
    }
    Ok(automata)
}

/// The number of the entry function of an automaton.
fn entry_of(groups: &Groups, it: &KnownAutomaton) -> Option<u32>
    ensures { result ≡ number_of (groups_view groups.now) (keys.Enters it.now.name) }
{
    groups.number_of(Key::Enters(it.name.as_slice()))
}

/// Automata with their entry functions.
fn enter_all(groups: &Groups, mut automata: Automata) -> Automata
    ensures { automata_view result ≡
        spec.entered (groups_view groups.now) (automata_view automata) }
{
    for number in 0..automata.len() {
        let function = entry_of(groups, &automata.as_slice()[number]);
        automata.enter(number, function);
    }
    automata
}

/// The automata of a source by its bodies in order, each with its states and its entry function
/// (Language Guide, "Automata").
///
/// # Errors
///
/// `Memory` for want of memory.
pub fn source_automata<'a>(
    alloc: Global,
    tags: &TagTable,
    fallback: &'a [u8],
    groups: &Groups<'a>,
    bodies: &[Written<'a>],
) -> Result<Automata, Memory>
    ensures { IfOk result (λ automata. automata_view automata ≡
        spec.automata tags.now fallback.now (groups_view groups.now)
        (map written_view bodies.now)) }
{
    let known = Known {
        alloc,
        tags,
        fallback,
        groups,
        naming: naming(alloc, groups.as_slice())?,
    };
    Ok(enter_all(groups, classified(&known, bodies)?))
}
