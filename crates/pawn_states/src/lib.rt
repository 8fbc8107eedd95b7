//! The classifiers of a function's bodies: which automaton and states each names, and the body that
//! runs in a state.
#![tactic(auto)]

mod classifier;
mod clause;
mod dispatch;
mod fault;

pub use classifier::classify;
pub use clause::Clause;
pub use dispatch::{Dispatch, pick};
pub use fault::StateFault;
pub use pawn_base::{Bytes, List};
