use super::piece::Piece;
use pawn_base::{Bytes, List};

/// What a definition puts in the place of its key and tail.
#[derive(Debug, Drop)]
pub struct Rule {
    /// What has to stand behind the key.
    pub tail: List<Piece>,
    /// Its literals are told apart where it is used.
    pub text: Bytes,
}
