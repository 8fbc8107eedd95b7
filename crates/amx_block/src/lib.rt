//! The memory of the abstract machine: one allocation for code, data, heap and stack.
#![tactic(auto)]

mod block;
mod compare;
mod copy;
mod expand;
mod load;

pub use block::Block;
