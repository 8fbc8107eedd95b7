//! The preprocessor: the rows of files, definitions, conditions and directives, up to the lines of
//! a source.
#![tactic(auto)]

mod blanks;
mod clean;
mod condition_parts;
mod cut;
mod define;
mod defined;
mod directive;
mod evaluate;
mod evaluation;
mod fault;
mod file;
mod group;
mod include;
mod level;
mod line;
mod matching;
mod part;
mod piece;
mod quote;
mod reading;
mod refusal;
mod row;
mod rule;
mod source;
mod state;
mod substitution;
mod table;
mod value;
mod walk;
mod work;

pub use blanks::{past_blanks, split_word, trimmed, trimmed_end};
pub use define::{Definition, read_definition, undefined};
pub use fault::PreFault;
pub use file::{File, read_rows};
pub use line::{Line, Lines};
pub use refusal::Refusal;
pub use row::Row;
pub use source::preprocess;
pub use table::Table;
pub use value::value_of;
