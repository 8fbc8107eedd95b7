//! Statements in code: simple ones, and whole bodies.
#![tactic(auto)]

mod bodies;
mod firsts;
mod loops;
mod places;
mod setting;
mod simple;
mod states;
mod values;

pub use bodies::stmt;
pub use setting::Setting;
