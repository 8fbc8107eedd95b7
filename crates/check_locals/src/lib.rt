//! What a statement makes, and the declarations of a block.
#![tactic(auto)]

mod answers;
mod cells;
mod counts;
mod declarations;
mod declaring;
mod judged_variables;
mod means;
mod objects;
mod point;
mod rules;
mod stood;
mod used;

pub use answers::{answer, told};
pub use cells::local_by;
pub use declarations::{local_constant, local_vars, locals, then_maybe, told_constant};
pub use declaring::{Declaring, Judging, Outcome};
pub use judged_variables::{judge_behind, judge_vars};
pub use means::{declare_var, tag_of};
pub use objects::objects_in;
pub use pawn_verdict::CheckFault;
pub use point::Point;
pub use rules::{
    Jump, assert_rule, block_rule, do_rule, do_while_rule, exit_rule, for_rule, if_rule, in_a_loop,
    otherwise_of, return_rule, sleep_rule, state_rule, while_rule,
};
pub use stood::{Parts, Returned, Stood, one_of};
pub use used::{Maybe, Used, use_at, zero_used};
