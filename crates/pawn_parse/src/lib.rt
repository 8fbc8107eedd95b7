//! The parser: the one tree that spells a list of tokens, or why there is none.
#![tactic(auto)]

mod declarations;
mod deep;
mod enums;
mod functions;
mod heads;
mod labels;
mod parse_fault;
mod source_tree;

pub use parse_fault::ParseFault;
pub use source_tree::parse;
