use pawn_base::Memory;
use pawn_states::{Bytes, Clause, Dispatch, List, StateFault, classify, pick};
use std::alloc::Global;

/// States whose names have one letter each.
fn letters(alloc: Global, states: &str) -> Result<List<Bytes>, Memory> {
    let mut names = List::new(alloc);
    for state in states.bytes() {
        names.push(Bytes::from_slice(alloc, &[state])?)?;
    }
    Ok(names)
}

/// A clause of an automaton with such states.
fn clause(alloc: Global, automaton: &str, states: &str) -> Result<Clause, Memory> {
    let automaton = Bytes::from_slice(alloc, automaton.as_bytes());
    let states = letters(alloc, states);
    Ok(Clause {
        automaton: automaton?,
        states: states?,
    })
}

/// Automata, each with the states of a clause.
type Three = [(&'static str, &'static str); 3];

fn clauses(alloc: Global, three: Three) -> Result<List<Clause>, Memory> {
    let mut clauses = List::new(alloc);
    for (automaton, states) in three {
        clauses.push(clause(alloc, automaton, states)?)?;
    }
    Ok(clauses)
}

/// The dispatch of clauses, or their first fault; want of memory where they are too many.
fn classify_all(alloc: Global, clauses: &[Clause]) -> Result<Dispatch, StateFault> {
    if clauses.len() > 100_000 {
        return Err(StateFault::Memory);
    }
    classify(alloc, clauses)
}

fn classify_three(alloc: Global, three: Three) -> Result<Dispatch, StateFault> {
    let clauses = clauses(alloc, three)?;
    classify_all(alloc, clauses.as_slice())
}

/// Three clauses with their first fault.
const FAULTS: [(Three, StateFault); 7] = [
    ([("m", "a"), ("m", "a"), ("n", "b")], StateFault::Twice(1)),
    ([("m", "a"), ("m", "bcb"), ("m", "")], StateFault::Twice(1)),
    ([("m", "a"), ("m", "b"), ("m", "ca")], StateFault::Twice(2)),
    ([("m", "a"), ("n", "a"), ("m", "a")], StateFault::Mixed(1)),
    ([("", "a"), ("n", ""), ("m", "a")], StateFault::Mixed(2)),
    (
        [("m", ""), ("n", ""), ("m", "a")],
        StateFault::FallbackTwice(1),
    ),
    (
        [("m", ""), ("m", "b"), ("m", "")],
        StateFault::FallbackTwice(2),
    ),
];

fn has_fault(answer: Result<Dispatch, StateFault>, wanted: StateFault) -> bool {
    match answer {
        Ok(_dispatch) => false,
        Err(fault) => fault == wanted,
    }
}

#[test]
fn first_faults(rt: HostRuntime) {
    for (three, wanted) in FAULTS {
        assert!(rt; has_fault(classify_three(rt.alloc(), three), wanted));
    }
}

/// What states have for their body.
const BODIES: [(&str, u32); 5] = [("a", 1), ("b", 2), ("c", 2), ("d", 0), ("", 0)];

/// Whether a dispatch has those bodies, and the first one where no state holds.
fn has_bodies(dispatch: &Dispatch) -> bool {
    for (name, body) in BODIES {
        if pick(dispatch, Some(name.as_bytes())) != Some(body) {
            return false;
        }
    }
    pick(dispatch, None) == Some(0)
}

fn dispatches(alloc: Global) -> bool {
    match classify_three(alloc, [("n", ""), ("m", "a"), ("m", "bc")]) {
        Ok(dispatch) => {
            dispatch.automaton.as_slice() == b"m".as_slice()
                && dispatch.fallback == Some(0)
                && dispatch.cases.len() == 3
                && has_bodies(&dispatch)
        }
        Err(_) => false,
    }
}

#[test]
fn a_dispatch(rt: HostRuntime) {
    assert!(rt; dispatches(rt.alloc()));
}

/// Puts a case more.
fn add_case(alloc: Global, dispatch: &mut Dispatch, name: &[u8], body: u32) -> Result<(), Memory> {
    let name = Bytes::from_slice(alloc, name)?;
    dispatch.cases.push((name, body))
}

/// Whether a dispatch without a fallback has no body for other states, and the first of two cases
/// is picked.
fn picks_first(alloc: Global, mut dispatch: Dispatch) -> bool {
    dispatch.automaton.is_empty()
        && pick(&dispatch, Some(b"d")).is_none()
        && pick(&dispatch, None).is_none()
        && add_case(alloc, &mut dispatch, b"b", 7).is_ok()
        && pick(&dispatch, Some(b"b")) == Some(1)
}

fn three_pick_first(alloc: Global) -> bool {
    match classify_three(alloc, [("", "a"), ("", "b"), ("", "c")]) {
        Ok(dispatch) => picks_first(alloc, dispatch),
        Err(_) => false,
    }
}

fn nothing_is_picked(alloc: Global) -> bool {
    match classify(alloc, &[]) {
        Ok(nothing) => nothing.cases.is_empty() && nothing.fallback.is_none(),
        Err(_) => false,
    }
}

#[test]
fn no_body(rt: HostRuntime) {
    assert!(rt; three_pick_first(rt.alloc()));
    assert!(rt; nothing_is_picked(rt.alloc()));
}

/// A clause of one state, whose name is a number's bytes.
fn numbered(alloc: Global, number: u32) -> Result<Clause, Memory> {
    let mut states = List::new(alloc);
    states.push(Bytes::from_slice(alloc, &number.to_le_bytes())?)?;
    let automaton = Bytes::from_slice(alloc, b"m")?;
    Ok(Clause { automaton, states })
}

/// Clauses of the first 20,000 numbers, and of some more.
fn many(alloc: Global, more: &[u32]) -> Result<List<Clause>, Memory> {
    let mut clauses = List::new(alloc);
    for number in 0..20_000u32 {
        clauses.push(numbered(alloc, number)?)?;
    }
    for number in more {
        clauses.push(numbered(alloc, *number)?)?;
    }
    Ok(clauses)
}

fn classify_many(alloc: Global, more: &[u32]) -> Result<Dispatch, StateFault> {
    let clauses = many(alloc, more)?;
    classify_all(alloc, clauses.as_slice())
}

/// Whether the last of many clauses is picked.
fn picks_last(alloc: Global) -> bool {
    match classify_many(alloc, &[]) {
        Ok(dispatch) => pick(&dispatch, Some(&19_999_u32.to_le_bytes())) == Some(19_999),
        Err(_) => false,
    }
}

#[test]
fn many_clauses(rt: HostRuntime) {
    assert!(rt; picks_last(rt.alloc()));
    assert!(rt; has_fault(classify_many(rt.alloc(), &[5]), StateFault::Twice(20_000)));
}
