//! The small types that every layer stands on: want of memory, lists that contracts see as their
//! elements, and names with their numbers.
#![tactic(auto)]

mod bytes;
mod cells;
mod list;
mod memory;
mod name_table;

pub use bytes::Bytes;
pub use cells::Cells;
pub use list::List;
pub use memory::Memory;
pub use name_table::Names;
