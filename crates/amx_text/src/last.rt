use super::kind::Kind;

/// What the last line was, as far as it says which may follow.
#[derive(Clone, Copy, Debug, PartialEq, Eq)]
pub enum Last {
    Nothing,
    /// The header, or a record of this table: a record of it or of a later one may follow, or the
    /// code.
    Tables(Kind),
    /// The line before the code, or an instruction.
    Code,
    /// The line before the data, or a whole row of cells.
    Data,
    /// A row with fewer cells: the end alone may follow.
    ShortRow,
    End,
}
