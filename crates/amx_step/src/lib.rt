//! The registers and memory of a machine, and one step of it for each instruction.
#![tactic(auto)]

mod access;
mod arithmetic;
mod bytes;
mod calls;
mod cases;
mod cell_bytes;
mod error;
mod flow;
mod host_instructions;
mod host_registers;
mod load;
mod loads;
mod registers;
mod runs;
mod set;
mod stack;
mod stores;
mod testing;
mod turn;
mod turns;

pub use host_registers::Registers;
pub use registers::Core;
pub use runs::run;
pub use turn::Turn;
pub use turns::step;
