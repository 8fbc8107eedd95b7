//! Names: which declaration each occurrence of a name means, and what constants are worth.
#![tactic(auto)]

mod mentioned_tags;
mod resolved_names;
mod resolver;

pub use mentioned_tags::tags_of;
pub use pawn_verdict::CheckFault;
pub use resolved_names::{Names, resolve};
