//! The source of the sample program of so many functions.
#![tactic(auto)]

mod source;

pub use source::sample_source;
