//! What is known around each expression of a source, and what the bodies of one function keep
//! together.
#![tactic(auto)]

mod against;
mod beginning;
mod bodies;
mod callables;
mod clauses;
mod context;
mod copies;
mod firsts;
mod forwards;
mod function_groups;
mod group;
mod heads;
mod operators;
mod places;
mod rules;
mod same_heads;
mod same_params;
mod stated;

pub use beginning::begin;
pub use callables::{heading_name, is_called, is_native};
pub use clauses::clauses_of;
pub use context::make_context;
pub use firsts::{Firsts, enters_all, find_firsts, own_number};
pub use function_groups::group_faults;
pub use stated::tag_at;
