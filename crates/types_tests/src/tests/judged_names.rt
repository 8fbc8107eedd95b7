use super::trees::tree_of;
use pawn_names::{CheckFault, Names, resolve};
use std::alloc::Global;

/// The names of a source, where it has a tree and its names are resolved.
pub fn names_of(alloc: Global, source: &str) -> Option<Names> {
    let tree = tree_of(alloc, source)?;
    resolve(alloc, &tree).ok()
}

/// Whether the names of a source are these pairs of tokens and these values.
pub fn resolves(alloc: Global, source: &str, uses: &[(u32, u32)], values: &[(u32, i32)]) -> bool {
    match names_of(alloc, source) {
        None => false,
        Some(names) => names.uses.as_slice() == uses && names.values.as_slice() == values,
    }
}

/// Whether a source has a tree whose names have a fault of this number on this line.
pub fn breaks(alloc: Global, source: &str, number: u8, line: u32) -> bool {
    let Some(tree) = tree_of(alloc, source) else {
        return false;
    };
    match resolve(alloc, &tree) {
        Ok(_) | Err(CheckFault::Memory) => false,
        Err(CheckFault::Source { kind, place }) => kind == number && place.line == line,
    }
}
