use pawn_base::{Bytes, List};

/// The classifier of one body (Language Guide, "State classifiers"). One without states is the
/// fallback, whose automaton isn't looked at. The anonymous automaton is the empty name.
#[derive(Drop)]
pub struct Clause {
    pub automaton: Bytes,
    pub states: List<Bytes>,
}
