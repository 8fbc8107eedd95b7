//! The machine of a file as a host runs it: started, stepped, asked by its natives, and asleep.
#![tactic(auto)]

mod event;
mod laws;
mod load_file;
mod machine;
mod memory;
mod mode;
mod start;

pub use amx_step::Registers;
pub use event::Event;
pub use laws::{dead_cells_are_unseen, runs_are_bounded};
pub use machine::Machine;
pub use mode::Mode;
pub use start::StartFault;
