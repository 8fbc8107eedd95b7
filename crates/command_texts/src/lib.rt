//! The texts of commands that read no file: what each number says, with what gives it
//! and its cure; and the form of each command.
#![tactic(auto)]

mod calls;
mod errors;
mod explanation;
mod files;
mod forms;
mod helping;
mod inputs;
mod kind;
mod lines;
mod listings;
mod row;
mod statuses;
mod tables;
mod trees;
mod values;

pub use explanation::{explain, is_explained};
pub use helping::{help, is_word};
