use pawn_base::List;
use pawn_cells::Place;
use pawn_meaning::Program;

/// What the rules give of a tree.
#[derive(Drop)]
pub struct Checked {
    pub program: Program,
    /// The places of the warnings, in the order of their tokens.
    pub warnings: List<Place>,
}
