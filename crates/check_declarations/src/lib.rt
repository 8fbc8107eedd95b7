//! Declarations of a source, and what a source is as a whole: its functions, publics, automata,
//! returns.
#![tactic(auto)]

mod automata;
mod constants;
mod declaration_steps;
mod decls;
mod done_declarations;
mod enumerations;
mod function_bodies;
mod function_rules;
mod function_table;
mod globals;
mod group_names;
mod keys;
mod known;
mod marks;
mod natives;
mod paths;
mod program;
mod public_marks;
mod published;
mod returns;
mod routes;
mod slots;
mod sorting;
mod source_reading;
mod source_rules;
mod sums;
mod tags;

pub use check_nodes::PartFault;
pub use decls::declarations;
pub use done_declarations::{Bodied, Done};
pub use group_names::names_by_number;
pub use known::Known;
pub use paths::heads;
pub use program::program_of;
pub use published::{has_entry, publics};
pub use returns::returns_stand;
pub use source_reading::{read_source, source_tags};
pub use source_rules::whole_stands;
pub use sums::sums_stand;
