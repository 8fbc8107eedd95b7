/// The program's version.
pub const PROGRAM: [u8; 3] = *b"1.0";

/// The version of the Pawn language.
pub const LANGUAGE: [u8; 3] = *b"3.x";
