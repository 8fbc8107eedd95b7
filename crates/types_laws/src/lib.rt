//! What stands for a tree is a valid program, and a tree that has none has a fault: laws of the
//! rules of types. A law is the contract of a call that does nothing.
#![tactic(auto)]

mod fault_laws;
mod program_laws;
mod source_laws;
mod use_order_laws;
mod validity_laws;

pub use fault_laws::faults_are_given;
pub use program_laws::{
    arrays_are_good, bodies_are_valid, expressions_are_plain, files_are_sites,
    functions_are_headed, heads_are_same, programs_are_within_limits, statements_are_valid,
};
pub use source_laws::sources_are_good;
pub use use_order_laws::{uses_rise, values_rise};
pub use validity_laws::{expressions_are_valid, publics_are_sorted};
