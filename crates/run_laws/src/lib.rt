//! Laws of runs: where a machine fell asleep it can go on from its image, and the trace of a file
//! that agrees with its program is that of the program's meaning, with an end or without.
#![tactic(auto)]

mod laws;

pub use laws::{agreement_is_whole, sleeps_are_restorable};
