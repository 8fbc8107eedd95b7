//! The parser of expressions and statements: the node that spells the tokens at a place, or the
//! token at which none goes on.
#![tactic(auto)]

mod arguments;
mod blocks;
mod case_ranges;
mod chain;
mod deepest;
mod ends;
mod expression_rules;
mod expressions;
mod inits;
mod knot;
mod levels;
mod looks;
mod nodes;
mod operands;
mod operators;
mod part;
mod precedence;
mod read_fault;
mod simple_statements;
mod state_names;
mod statement_rules;
mod statement_values;
mod switches;
mod token_parser;
mod variables;

pub use arguments::call_node;
pub use expressions::Reader;
pub use knot::statement;
pub use part::{Got, Part, no_parts, one_part};
pub use precedence::{expression, more_arguments, value_argument};
pub use read_fault::ReadFault;
pub use token_parser::Parser;
