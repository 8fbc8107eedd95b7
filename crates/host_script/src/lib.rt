//! Native scripts, the events and the end of a run, and the lines that are printed for them. The
//! meaning of a source and the machine both speak of natives in these words and in no others.
#![tactic(auto)]

mod arguments;
mod event;
mod lines;
mod plain;
mod script;

pub use arguments::{has_text, say_cell, say_cells, say_reference, say_text};
pub use event::{End, Event, Seen};
pub use lines::{say_answer, say_end, say_name, say_native, say_slept};
pub use plain::plain_script;
pub use script::{
    ANSWER_LIMIT, ARGUMENT_LIMIT, Answer, CELL_LIMIT, FORM_LIMIT, Form, NAME_LIMIT, Native, Script,
    Write,
};
