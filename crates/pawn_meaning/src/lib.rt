//! Typed programs, which of them are valid, and what they mean.
#![tactic(auto)]

mod expr_weight;
mod folding;
mod load;
mod locals;
mod meaning_laws;
mod name_limits;
mod needs;
mod node;
mod program;
mod program_limits;
mod stmt_load;
mod stmt_weight;
mod weights;

pub use expr_weight::fold;
pub use locals::locals_fit;
pub use meaning_laws::{
    fold_means, later_turns_extend, need_is_small, runs_extend, runs_grow, turns_never_fall,
};
pub use name_limits::{NAME_LIMIT, NAMES_LIMIT};
pub use needs::need;
pub use node::{Arg, Array, Case, Expr, Link, Scalar, Stmt};
pub use pawn_arrays::Shape;
pub use pawn_cells::{Comparison, Operator, Prefix};
pub use program::{Automaton, Body, Function, Object, Program, Public, Route, Slot, Tag};
pub use program_limits::{DATA_LIMIT, DYNAMIC_LIMIT, WEIGHT_LIMIT};
pub use weights::{lean, weight};
