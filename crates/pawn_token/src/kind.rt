use super::key::Key;
use super::sign::Sign;
use pawn_base::Bytes;

/// What a token is.
#[derive(Debug, Drop)]
pub enum TokenKind {
    Name(Bytes),
    Key(Key),
    /// A number or a character, as a cell.
    Number(i32),
    /// A text, with its escapes replaced.
    Text { bytes: Bytes, packed: bool },
    Sign(Sign),
}
