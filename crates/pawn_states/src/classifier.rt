ghost use Rattle.std.specs.Prelude.{◌≡◌, ◌^◌, ◌<◌, [], None, length};
ghost use Rattle.pawn_states.specs.Classified.{classified, Gives};
ghost use Rattle.pawn_states.specs.Known as known;

use super::clause::Clause;
use super::dispatch::Dispatch;
use super::fault::StateFault;
use pawn_base::{Bytes, List, Names};
use std::alloc::Global;

/// What is known of the clauses read so far, none of which breaks a rule.
#[derive(Drop)]
struct Known {
    automaton: Option<Bytes>,
    states: Names,
    cases: List<(Bytes, u32)>,
    fallback: Option<u32>,
}

impl Known {
    fn new(alloc: Global) -> Known
        ensures { result ≡ known.nothing }
    {
        Known {
            automaton: None,
            states: Names::new(alloc),
            cases: List::new(alloc),
            fallback: None,
        }
    }

    fn add_fallback(&mut self, number: u32) -> Result<(), StateFault>
        ensures { known.Becomes (known.with_fallback self.old number) self.new result }
    {
        if self.fallback.is_some() {
            return Err(StateFault::FallbackTwice(number));
        }
        self.fallback = Some(number);
        Ok(())
    }

    fn name_automaton(
        &mut self,
        alloc: Global,
        automaton: &[u8],
        number: u32,
    ) -> Result<(), StateFault>
        ensures { known.Becomes
            (known.with_automaton self.old automaton.now number) self.new result }
    {
        match &self.automaton {
            Some(named) => {
                if named.as_slice() != automaton {
                    return Err(StateFault::Mixed(number));
                }
            }
            None => self.automaton = Some(Bytes::from_slice(alloc, automaton)?),
        }
        Ok(())
    }

    fn add_state(&mut self, alloc: Global, state: &[u8], number: u32) -> Result<(), StateFault>
        ensures { known.Becomes (known.with_state self.old state.now number) self.new result }
    {
        if !self.states.add(alloc, state)? {
            return Err(StateFault::Twice(number));
        }
        self.cases.push((Bytes::from_slice(alloc, state)?, number))?;
        Ok(())
    }

    fn add_states(&mut self, alloc: Global, states: &[Bytes], number: u32) -> Result<(), StateFault>
        ensures { known.Becomes (known.with_states self.old states.now number) self.new result }
    {
        for state in states {
            self.add_state(alloc, state.as_slice(), number)?;
        }
        Ok(())
    }

    fn add(&mut self, alloc: Global, clause: &Clause, number: u32) -> Result<(), StateFault>
        ensures { known.Becomes (known.with_clause self.old clause.now number) self.new result }
    {
        if clause.states.is_empty() {
            return self.add_fallback(number);
        }
        self.name_automaton(alloc, clause.automaton.as_slice(), number)?;
        self.add_states(alloc, clause.states.as_slice(), number)
    }

    fn add_all(&mut self, alloc: Global, clauses: &[Clause]) -> Result<(), StateFault>
        requires { length clauses.now < 2 ^ 32 }
        ensures { known.Becomes (known.with_clauses self.old clauses.now 0) self.new result }
    {
        for (number, clause) in clauses.iter().enumerate() {
            self.add(alloc, clause, number as u32)?;
        }
        Ok(())
    }

    fn into_dispatch(self, alloc: Global) -> Dispatch
        ensures { result ≡ known.dispatch_from self }
    {
        let Known {
            automaton,
            states: _,
            cases,
            fallback,
        } = self;
        Dispatch {
            automaton: match automaton {
                Some(named) => named,
                None => Bytes::new(alloc),
            },
            cases,
            fallback,
        }
    }
}

/// The dispatch of a function by the classifiers of its bodies, or the first fault: at the first
/// clause that breaks a rule by itself or with those before it, tested for another automaton, then
/// for a second fallback, then for a state that stands twice.
#[tactic(auto, using(crate::proofs::KnownLaws::classified_is, crate::proofs::KnownLaws::fault_is))]
pub fn classify(alloc: Global, clauses: &[Clause]) -> Result<Dispatch, StateFault>
    requires { length clauses.now < 2 ^ 32 }
    ensures { Gives (classified clauses.now) result }
{
    let mut known = Known::new(alloc);
    known.add_all(alloc, clauses)?;
    Ok(known.into_dispatch(alloc))
}
