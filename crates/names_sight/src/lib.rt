//! What is in sight at a place of a tree, what constants are worth, and marks of what is used.
#![tactic(auto)]

mod constant_worth;
mod constants;
mod context;
mod expression_marks;
mod fault;
mod known;
mod mark;
mod marks;
mod operators;
mod outside;
mod scopes;
mod signs;
mod sizes;
mod statement;
mod tag_numbers;
mod tree;
mod variable;

pub use constant_worth::worth;
pub use constants::name_worth;
pub use context::Context;
pub use fault::{TWICE, UNKNOWN};
pub use known::{Kind, Known, Size};
pub use mark::{Declaration, Mark, Sort, Use};
pub use operators::{op_of, operators_of, plain_tag, right_tag};
pub use outside::{FileNames, Role, file_names};
pub use pawn_tags::UNTAGGED;
pub use scopes::Scopes;
pub use sizes::{constant_value, parameter_sizes, variable_sizes};
pub use tag_numbers::tag_number;
pub use tree::tree_marks;
