//! Which typed node each expression is, and what variables begin with.
#![tactic(auto)]

mod arrays;
mod boxes;
mod broken_part;
mod cells;
mod constants;
mod expression;
mod filling;
mod firsts;
mod here;
mod judged_parts;
mod leaves;
mod lists;
mod nodes;
mod sizes;
mod told_faults;

pub use arrays::{ArrayValue, array_shape, array_value, within};
pub use cells::{LocalValue, local_value, static_value};
pub use constants::{Constant, constant_rule, constant_value, constant_warned};
pub use expression::expr;
pub use filling::First;
pub use here::Here;
pub use judged_parts::{judge_dims, judge_maybe, judge_var};
pub use sizes::{Dimensions, array_dimensions};
