//! The command `many`: the machines of a plan in one host.
#![tactic(auto)]

mod machines;
mod plans;

pub use plans::{PLAN_LIMIT, many};
