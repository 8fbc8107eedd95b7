//! Calls and places: arguments for parameters, indexes, assignments, texts.
#![tactic(auto)]

mod assignments;
mod calls;
mod defaults;
mod filling;
mod given;
mod indexes;
mod numbers;
mod signs;
mod text_cells;
mod updates;
mod wanted_array;

pub use assignments::assign;
pub use calls::{Callee, call, find_callee};
pub use filling::Offer;
pub use indexes::{character, index};
pub use text_cells::text;
