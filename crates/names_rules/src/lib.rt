//! What the names of a tree mean, and which nodes break a rule of names: definitions and laws. No
//! code does anything here.
#![tactic(auto)]

mod resolution_laws;

pub use resolution_laws::{
    at_most_one_names, fault_kinds, faults_stay, known_is_meant, path_finds, resolved_means,
};
