//! Checking: the typed program of a tree, with its warnings, or a rule that the tree breaks.
#![tactic(auto)]

mod checked;
mod checking;
mod declared;
mod distinct_names;
mod names_of_functions;
mod source_verdict;
mod together;
mod tree_reading;

pub use checked::Checked;
pub use checking::check;
pub use names_of_functions::function_names;
pub use pawn_verdict::CheckFault;
