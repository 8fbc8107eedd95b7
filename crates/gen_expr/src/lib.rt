//! Code of expressions: instructions put one behind another, and each node's.
#![tactic(auto)]

mod access;
mod arguments;
mod base;
mod builder;
mod calls;
mod chain;
mod conditions;
mod counts;
mod direct;
mod effects;
mod emit;
mod emitter;
mod ends;
pub mod frame;
pub mod jumps;
pub mod operators;
mod push;
pub mod put;
mod reach;
mod right;
mod steps;
mod target;
mod update;

pub use builder::Builder;
pub use conditions::{Test, condition};
pub use effects::effect;
pub use emitter::{expression, push_expression};
pub use right::folded;
