use super::name::Name;
use pawn_base::{Cells, List};

/// An AMX file (Implementer's Guide, "File format").
#[derive(Debug, Drop)]
pub struct Amx {
    pub flags: u16,
    /// The AMX version, from 1 to 8.
    pub version: u8,
    pub code: Cells,
    /// The cells of the data.
    pub store: Cells,
    /// The room for heap and stack, in cells.
    pub room: u32,
    /// The address of main in bytes, or -1.
    pub entry: i32,
    pub publics: List<Record>,
    pub natives: List<Record>,
    pub libraries: List<Record>,
    pub variables: List<Record>,
    pub tags: List<Record>,
}

/// An entry of a file's table.
#[derive(Debug, Drop)]
pub struct Record {
    /// An address, or a tag's number.
    pub address: i32,
    pub name: Name,
}
