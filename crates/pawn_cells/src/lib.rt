//! Cells, the one type of value in Pawn: 32 bits in two's complement; the operators on them, and
//! the constants that every source has. Nothing here takes memory.
#![tactic(auto)]

mod cell;
mod constant;
mod operator;
mod place;

pub use cell::Cell;
pub use constant::{Constant, predefined};
pub use operator::{CHOICE_LEVEL, COMPARISON_LEVEL, Comparison, Logical, Operator, Prefix};
pub use place::Place;
