use check_nodes::Context;
use check_source::{Automata, Groups};
use std::alloc::Global;

/// What is known of a source where its declarations are judged: the whole, its automata, its
/// functions by their keys, and the automaton of an entry function's fallback; and where memory is
/// taken.
#[derive(Clone, Copy)]
pub struct Known<'s> {
    pub alloc: Global,
    pub cx: &'s Context,
    pub automata: &'s Automata,
    pub groups: &'s Groups<'s>,
    pub fallback: &'s [u8],
}
