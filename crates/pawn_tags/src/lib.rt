//! Tags with their numbers, which tag may stand where another is wanted, and the user operators
//! with the choice among them.
#![tactic(auto)]

mod op;
mod operators;
mod table;

pub use op::{Op, Signature};
pub use operators::{Choice, Operators};
pub use pawn_base::Memory;
pub use table::{TRUTH_TAG, TagTable, UNTAGGED, matches};
