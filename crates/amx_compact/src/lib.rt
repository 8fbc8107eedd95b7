//! Compact cells: groups of seven bits, the highest first, with the flag 0x80 on each byte that
//! isn't the cell's last one.
#![tactic(auto)]

mod fault;
mod read;
mod write;

pub use fault::CompactFault;
pub use read::{fits, read_cells};
pub use write::write_cell;
