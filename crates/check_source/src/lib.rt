//! What is known of a source before its bodies are looked at: keys, groups, automata, states.
#![tactic(auto)]

mod automata;
mod called;
mod classified;
mod expression;
mod fallback;
mod groups;
mod headings;
mod key;
mod naming;
mod operators;
mod source;
mod statement;
mod states;
mod tables;
mod variable;
mod written;

pub use automata::{Automata, KnownAutomaton};
pub use called::{Called, call_names};
pub use classified::source_automata;
pub use fallback::entry_fallback;
pub use groups::{Group, Groups, group_bodies};
pub use headings::{Heading, Role, heading_key, make_headings};
pub use key::{Key, is_entry, key_of};
pub use source::Source;
pub use states::{named_or, states_of};
pub use written::{Written, written_bodies};
