//! The greatest chain of calls of a program, and the stack that it needs.
#![tactic(auto)]

mod answer;
mod expressions;
mod graph;
mod laws;
mod measure;
mod search;
mod statements;

pub use answer::{Calls, Usage};
pub use laws::{live_calls_are_chains, usage_is_enough};
pub use measure::usage;
