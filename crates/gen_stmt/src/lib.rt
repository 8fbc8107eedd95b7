//! Code of statements: slots, jumps that are filled in, case tables, switches, and each node's.
#![tactic(auto)]

mod cases;
mod conditions;
mod count;
pub mod draft;
mod entries;
pub mod exits;
pub mod goes_on;
mod left;
pub mod locals;
mod loops;
mod nodes;
pub mod place;
pub mod statement;
mod states;
mod switches;
pub mod table;
mod write;
