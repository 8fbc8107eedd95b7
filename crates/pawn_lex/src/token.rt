use pawn_base::List;
use pawn_cells::Place;
use pawn_token::TokenKind;

/// A token and where it stands.
#[derive(Debug, Drop)]
pub struct Token {
    pub kind: TokenKind,
    pub place: Place,
    /// Whether it is the first on its line.
    pub first: bool,
    /// Whether it stands directly behind the token before it.
    pub touches: bool,
    /// Whether each statement needs its semicolon there.
    pub strict: bool,
}

/// The tokens of a source, in order.
#[derive(Debug, Drop)]
pub struct Tokens {
    pub list: List<Token>,
}
