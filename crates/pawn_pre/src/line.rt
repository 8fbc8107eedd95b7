use pawn_base::{Bytes, List};
use pawn_cells::Place;

/// The most bytes that all lines of a source have together.
pub const MOST_BYTES: u64 = 1_048_576;

/// A line as the preprocessor leaves it, with the settings in force there.
#[derive(Debug, Drop)]
pub struct Line {
    pub place: Place,
    /// The control character, which begins an escape in a literal.
    pub ctrl: u8,
    /// Whether each statement needs its semicolon.
    pub strict: bool,
    /// Whether plain texts are packed, and those behind `!` aren't.
    pub packed: bool,
    pub bytes: Bytes,
}

/// What the preprocessor makes of a source: the lines that are kept, in the order of reading.
#[derive(Debug, Drop)]
pub struct Lines {
    pub lines: List<Line>,
    /// The names of the files that were read, in the order of their first reading. The source is
    /// number 0.
    pub files: List<Bytes>,
    /// The room for heap and stack, in cells.
    pub dynamic: i32,
}
