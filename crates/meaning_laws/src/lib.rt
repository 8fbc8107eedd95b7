//! Laws of meanings: what a valid program comes to, and what it never comes to.
#![tactic(auto)]

mod laws;

pub use laws::{nothing_is_missing, numbers_are_in_range};
