ghost use Rattle.std.specs.Prelude.{◌≡◌, ◌<◌, [], ◌∷◌, ◌++◌, None, Some, map, length, slice_get};
ghost use Rattle.std.specs.Prelude.{option_map, position, IfOk, OnOk};
ghost use Rattle.std.specs.Option.{option_and_then};
ghost use Rattle.std.specs.Str.{bytes_eq};
ghost use Rattle.pawn_meaning.specs.View.{automaton_view};
ghost use Rattle.types_rules.specs.States.{automaton_named};
ghost use Rattle.types_rules.specs.Automata.{with_item};
ghost use Rattle.check_source.specs.AutomataView.{known_view, automata_view, states_in};
ghost use Rattle.check_source.specs.AutomataView.{known_with, known_entered};
ghost use Rattle.check_source.specs.Update.{updated};

use pawn_base::{Bytes, List, Memory, Names};
use pawn_meaning::Automaton;
use std::alloc::Global;
use std::marker::Model;

/// An automaton with its states, and the number of its entry function.
#[derive(Drop)]
pub struct KnownAutomaton {
    pub name: Bytes,
    pub states: Names,
    pub enter: Option<u32>,
}

/// The automata of a source, in order (Language Guide, "Automata"). They and their states are found
/// by name; the anonymous automaton has the empty one. Contracts see the list of them.
#[derive(Drop)]
pub struct Automata {
    names: Names,
    items: Vec<KnownAutomaton>,
}

impl Model for Automata {
    ghost use Rattle.std.specs.Prelude.{◌≡◌, List, map};
    ghost use Rattle.check_source.specs.declared.automata.KnownAutomaton.{KnownAutomaton};

    ghost Value = { List KnownAutomaton };

    ghost view = { λ automata. automata.items.items };

    ghost invariant = { λ automata.
        automata.names ≡ map (λ (it : KnownAutomaton). it.name) automata.items.items };
}

impl KnownAutomaton {
    /// As one of a program.
    fn into_item(self, alloc: Global) -> Result<Automaton, Memory>
        ensures { IfOk result (λ it. automaton_view it ≡ known_view self) }
    {
        let KnownAutomaton {
            name,
            states,
            enter,
        } = self;
        Ok(Automaton {
            name,
            states: states.into_list(alloc)?,
            enter,
        })
    }
}

impl Automata {
    /// No automata.
    pub fn new(alloc: Global) -> Automata
        ensures { result ≡ [] }
    {
        Automata {
            names: Names::new(alloc),
            items: Vec::new(alloc),
        }
    }

    /// How many there are.
    pub fn len(&self) -> usize
        ensures { result ≡ length self.now }
    {
        self.items.len()
    }

    /// The automata in order.
    pub fn as_slice(&self) -> &[KnownAutomaton]
        ensures { result.now ≡ self.now }
    {
        self.items.as_slice()
    }

    /// The number of the automaton with a name.
    pub fn number(&self, name: &[u8]) -> Option<usize>
        ensures { result ≡ automaton_named (automata_view self.now) name.now }
    {
        self.names.place(name)
    }

    /// The number of a state of the automaton with a number.
    pub fn state(&self, number: usize, state: &[u8]) -> Option<usize>
        ensures { result ≡
            option_and_then (position (bytes_eq state.now)) (states_in self.now number) }
    {
        match self.items.as_slice().get(number) {
            None => None,
            Some(it) => it.states.place(state),
        }
    }

    /// A state more of an automaton that is known.
    fn add_state(&mut self, alloc: Global, number: usize, state: &[u8]) -> Result<(), Memory>
        requires { number < length self.old }
        ensures { OnOk result (self.new ≡ updated self.old number (known_with state.now)) }
    {
        self.items[number].states.add(alloc, state)?;
        Ok(())
    }

    /// An automaton more, with its states.
    fn push(&mut self, alloc: Global, name: &[u8], states: Names) -> Result<(), Memory>
        requires { automaton_named (automata_view self.old) name.now ≡ None }
        ensures { OnOk result (self.new ≡ self.old ++
            record { name = name.now; states = states; enter = None } ∷ []) }
    {
        let bytes = Bytes::from_slice(alloc, name)?;
        self.items.reserve(1)?;
        self.names.push(alloc, name)?;
        let Ok(()) = self.items.push(KnownAutomaton {
            name: bytes,
            states,
            enter: None,
        })
        else {
            unreachable!()
        };
        Ok(())
    }

    /// An automaton without a state, where it isn't known yet.
    ///
    /// # Errors
    ///
    /// `Memory` for want of memory.
    pub fn mention(&mut self, alloc: Global, name: &[u8]) -> Result<(), Memory>
        ensures { OnOk result (automata_view self.new ≡
            with_item (automata_view self.old) name.now None) }
    {
        match self.number(name) {
            Some(_) => Ok(()),
            None => {
                self.push(alloc, name, Names::new(alloc))?;
                Ok(())
            }
        }
    }

    /// A state of an automaton, where these aren't known yet.
    ///
    /// # Errors
    ///
    /// `Memory` for want of memory.
    pub fn add(&mut self, alloc: Global, name: &[u8], state: &[u8]) -> Result<(), Memory>
        ensures { OnOk result (automata_view self.new ≡
            with_item (automata_view self.old) name.now (Some state.now)) }
    {
        match self.number(name) {
            Some(number) => {
                self.add_state(alloc, number, state)?;
                Ok(())
            }
            None => {
                let mut states = Names::new(alloc);
                states.push(alloc, state)?;
                self.push(alloc, name, states)?;
                Ok(())
            }
        }
    }

    /// The entry function of an automaton is the one with this number.
    pub fn enter(&mut self, number: usize, function: Option<u32>)
        requires { number < length self.old }
        ensures { self.new ≡ updated self.old number (known_entered function) }
    {
        self.items[number].enter = function;
    }

    /// The automata as those of a program.
    ///
    /// # Errors
    ///
    /// `Memory` for want of memory.
    pub fn into_list(self, alloc: Global) -> Result<List<Automaton>, Memory>
        ensures { IfOk result (λ list. map automaton_view list ≡ automata_view self) }
    {
        let Automata { names: _, items } = self;
        let mut list = List::new(alloc);
        for it in items {
            list.push(it.into_item(alloc)?)?;
        }
        Ok(list)
    }
}
