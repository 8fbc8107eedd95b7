use pawn_base::Bytes;

/// A line of a file, those that were joined as one.
#[derive(Debug, Drop)]
pub struct Row {
    /// Counted from 1; where lines were joined, that of the first.
    pub number: u32,
    /// Without the bytes that ended its lines.
    pub bytes: Bytes,
}
