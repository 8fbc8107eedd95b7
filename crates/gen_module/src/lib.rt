//! The file of a program: its data, the code of its functions, and its tables.
#![tactic(auto)]

mod addresses;
mod bodies;
mod cells;
mod files;
mod functions;
mod links;
mod module;
mod records;
mod routes;
mod sizes;
mod source;
mod starts;
mod states;

pub use addresses::object_addresses;
pub use cells::first_cells;
pub use module::generate;
