//! Heads of functions: parameters with their defaults, each known to those behind it and to the
//! body; and enumerations: constants that count up, and the name behind the last of them.
#![tactic(auto)]

mod counting;
mod defaults;
mod enums;
mod headed;
mod heads;
mod items;
mod meanings;
mod params;
mod passes;
mod reaches;
mod tags;

pub use enums::{declare_enum, enumeration};
pub use headed::Headed;
pub use heads::{head_of, head_rule, judge_head};
