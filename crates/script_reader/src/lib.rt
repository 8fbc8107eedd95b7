//! Native scripts, read from JSON.
#![tactic(auto)]

mod answers;
mod fault;
mod forms;
mod natives;
mod read;
mod rules;

pub use fault::{Field, ScriptFault};
pub use host_script::{Answer, Form, Native, Script, Write};
pub use read::read_script;
