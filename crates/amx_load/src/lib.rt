//! A block with a file's code and data: from its cells, or from the bytes that it was read from.
#![tactic(auto)]

mod cells;
mod file;

pub use cells::block_of;
pub use file::block_of_file;
