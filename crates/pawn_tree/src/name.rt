use pawn_base::Bytes;
use pawn_cells::Place;

/// A token by its number, from 0, and where it stands.
#[derive(Clone, Copy, Debug, PartialEq, Eq)]
pub struct At {
    pub token: usize,
    pub place: Place,
}

/// A name as it is spelled, or `_` where that may stand.
#[derive(Debug, Drop)]
pub struct Name {
    pub at: At,
    pub bytes: Bytes,
}

/// A text, with its escapes replaced.
#[derive(Debug, Drop)]
pub struct Text {
    pub at: At,
    pub bytes: Bytes,
    pub packed: bool,
}

/// A state, with the name of its automaton where it has one (Language Guide, "Automata").
#[derive(Debug, Drop)]
pub struct StateName {
    pub automaton: Option<Name>,
    pub state: Name,
}
