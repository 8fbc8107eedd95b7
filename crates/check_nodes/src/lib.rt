//! What code holds of types, and the rules of operators.
#![tactic(auto)]

mod chains;
mod choices;
mod context;
mod extent;
mod fault;
mod made;
mod meaning;
mod named_values;
mod operands;
mod operators;
mod prefixes;
mod scopes;
mod sizes;
mod steps;
mod tags;
mod text_sizes;
mod typed;
mod wanted_cell;

pub use chains::{Compared, chain, link};
pub use choices::choice;
pub use context::{Callable, Context, Head, Param, ParamDefault};
pub use extent::Extent;
pub use fault::PartFault;
pub use made::Made;
pub use meaning::{ArrayAt, CellAt, Meaning};
pub use named_values::{make_number, name, paren, tagged};
pub use operands::Operand;
pub use operators::{binary, chosen, divides_by_zero, make_value};
pub use pawn_base::Memory;
pub use pawn_tags::UNTAGGED;
pub use prefixes::{postfix, prefix};
pub use scopes::{Scopes, Sight};
pub use sizes::{sizeof_name, sizeof_text, tagof_name, tagof_tag};
pub use steps::target;
pub use tags::{converter, converter_to, first_tag, function_tag, send, tag_number, takes_either};
pub use text_sizes::text_size;
pub use typed::{Form, Typed};
pub use wanted_cell::{cell, line};
