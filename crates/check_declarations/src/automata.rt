ghost use Rattle.std.specs.Prelude.{◌≡◌, ◌∷◌, [], ◌++◌, map, IfOk, OnOk};
ghost use Rattle.pawn_meaning.specs.View.{automaton_view};
ghost use Rattle.check_source.specs.AutomataView.{known_view, automata_view};

use check_source::{Automata, KnownAutomaton};
use pawn_base::{Bytes, List, Memory, Names};
use pawn_meaning::Automaton;
use std::alloc::Global;

/// Names in order.
fn list_of(alloc: Global, names: &Names) -> Result<List<Bytes>, Memory>
    ensures { IfOk result (λ list. list ≡ names.now) }
{
    let mut list = List::new(alloc);
    for place in 0..names.len() {
        let Some(name) = names.get(place) else {
            unreachable!()
        };
        let copy = Bytes::from_slice(alloc, name)?;
        list.push(copy)?;
    }
    Ok(list)
}

/// An automaton as one of a program.
fn automaton_of(alloc: Global, it: &KnownAutomaton) -> Result<Automaton, Memory>
    ensures { IfOk result (λ item. automaton_view item ≡ known_view it.now) }
{
    let name = Bytes::from_slice(alloc, it.name.as_slice())?;
    let states = list_of(alloc, &it.states)?;
    Ok(Automaton {
        name,
        states,
        enter: it.enter,
    })
}

/// The automata of a source as those of a program.
pub fn automata_of(alloc: Global, automata: &Automata) -> Result<List<Automaton>, Memory>
    ensures { IfOk result (λ list. map automaton_view list ≡ automata_view automata.now) }
{
    let mut list = List::new(alloc);
    for it in automata.as_slice() {
        list.push(automaton_of(alloc, it)?)?;
    }
    Ok(list)
}
