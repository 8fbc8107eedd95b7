//! The compiler as a host embeds it: sources in memory are compiled to the bytes of a file, with
//! its warnings, or the refusal is told.
#![tactic(auto)]

mod answer;
mod handle;
mod slot;
mod sources;
#[cfg(test)]
mod tests;

pub use handle::SulkhenSources;
pub use pawn_front::{CompileFault, Compiled, Encoding, Warning};
pub use slot::SourcesSlot;
pub use sources::Sources;
