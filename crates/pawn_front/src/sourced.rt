use super::compiled::Warning;
use pawn_base::{Bytes, List};
use pawn_meaning::Program;

/// What a source means.
#[derive(Drop)]
pub struct Sourced {
    pub program: Program,
    /// In the order of their tokens.
    pub warnings: List<Warning>,
    /// The name of each function by its number, as it is written; that of an operator is
    /// `operator` followed by its sign.
    pub names: List<Bytes>,
}
