use check_nodes::Context;
use check_source::Automata;
use std::alloc::Global;

/// What is known where a body is judged: the source, its automata, and the tag of what the function
/// gives; and where memory is taken.
#[derive(Clone, Copy)]
pub struct Setting<'c> {
    pub alloc: Global,
    pub cx: &'c Context,
    pub automata: &'c Automata,
    pub result: u32,
}
