//! Which trees spell which tokens: the grammar of Pawn as definitions. There is no code here.
#![tactic(auto)]

mod joint;
mod modifiers;
mod spelling_laws;
mod word;

pub use joint::Joint;
pub use modifiers::Modifiers;
pub use spelling_laws::{at_most_one_tree, unit_is_complete, unit_is_spelled};
pub use word::Word;
