use pawn_token::{Key, Sign};

/// What a token is, without what it spells.
#[derive(Clone, Copy)]
pub enum Word {
    /// Behind the last token.
    Absent,
    /// A name other than `_`.
    Name,
    /// `_`
    Blank,
    Number,
    Text,
    Key(Key),
    Sign(Sign),
}
