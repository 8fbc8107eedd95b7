use pawn_base::{Bytes, List};

/// A tested value whose tag isn't the wanted one (Language Guide, "Tag names"): the name of the
/// file and the number of the line, from 1, where it stands.
#[derive(Debug, Drop)]
pub struct Warning {
    pub file: Bytes,
    pub line: u32,
}

/// What a source is compiled to.
#[derive(Debug, Drop)]
pub struct Compiled {
    /// The bytes of the file.
    pub bytes: Bytes,
    /// In the order of their tokens.
    pub warnings: List<Warning>,
}
