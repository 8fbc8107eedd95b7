//! A box as the pointer that C holds of it.
#![tactic(auto)]

mod loose;

pub use loose::Loose;
