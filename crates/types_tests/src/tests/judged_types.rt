use super::trees::tree_of;
use pawn_base::{Bytes, List};
use pawn_cells::Place;
use pawn_check::{CheckFault, Checked, check, function_names};
use std::alloc::Global;

/// A source, and the numbers and lines of the faults that it may be refused with.
pub type Faulty = (&'static str, &'static [(u8, u32)]);

/// A source that stands, and the lines of its warnings.
pub type Standing = (&'static str, &'static [u32]);

/// The room for heap and stack, in cells.
const ROOM: i32 = 4_096;

/// Whether a source is refused with one of these faults.
pub fn breaks(alloc: Global, source: &str, faults: &[(u8, u32)]) -> bool {
    breaks_in(alloc, source, ROOM, faults)
}

/// Whether a source is refused with one of these faults, with a room of so many cells.
pub fn breaks_in(alloc: Global, source: &str, room: i32, faults: &[(u8, u32)]) -> bool {
    let Some(tree) = tree_of(alloc, source) else {
        return false;
    };
    match check(alloc, &tree, room) {
        Ok(_) | Err(CheckFault::Memory) => false,
        Err(CheckFault::Source { kind, place }) => faults.contains(&(kind, place.line)),
    }
}

/// Whether these are the lines of warnings.
fn are_lines(warnings: &[Place], lines: &[u32]) -> bool {
    warnings
        .iter()
        .map(|place| place.line)
        .eq(lines.iter().copied())
}

/// Whether a source stands, with warnings at these lines.
pub fn warns(alloc: Global, source: &str, lines: &[u32]) -> bool {
    let Some(tree) = tree_of(alloc, source) else {
        return false;
    };
    match check(alloc, &tree, ROOM) {
        Ok(checked) => are_lines(checked.warnings.as_slice(), lines),
        Err(_) => false,
    }
}

/// Whether these are names, byte by byte.
fn are_names(list: &[Bytes], names: &[&str]) -> bool {
    list.iter()
        .map(|name| name.as_slice())
        .eq(names.iter().map(|name| name.as_bytes()))
}

/// Whether the functions of a source have these names, by number.
pub fn names_functions(alloc: Global, source: &str, names: &[&str]) -> bool {
    let Some(tree) = tree_of(alloc, source) else {
        return false;
    };
    match function_names(alloc, &tree) {
        Ok(list) => are_names(list.as_slice(), names),
        Err(_) => false,
    }
}
