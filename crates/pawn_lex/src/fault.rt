use pawn_cells::Place;
use thiserror::Error;

/// Why lines have no tokens.
#[derive(Clone, Copy, Debug, PartialEq, Eq, Error)]
pub enum LexFault {
    /// A fault of the source, 20 to 23, 25 or 26, and its line.
    #[error("a fault of the source")]
    Source { kind: u8, place: Place },
    #[error("no memory")]
    Memory,
}
