//! The cases of a `switch` in code: their values, none of which stands twice, and the typed
//! statement.
#![tactic(auto)]

mod apart;
mod case_parts;
mod ends;
mod labels;
mod switches;

pub use case_parts::{CasePart, CaseParts, case_told, no_case, with_case};
pub use ends::all_ends;
pub use switches::switch_told;
