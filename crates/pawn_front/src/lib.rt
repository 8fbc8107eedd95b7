//! A source compiled, over the files that it includes: its lines, tokens, tree and program, and the
//! bytes of that program's file.
#![tactic(auto)]

mod checking;
mod compiled;
mod fault;
mod files;
mod good;
mod making;
mod one_program;
mod source;
mod sourced;

pub use amx_format::Encoding;
pub use compiled::{Compiled, Warning};
pub use fault::CompileFault;
pub use one_program::{a_source_has_one_program, what_means_is_not_refused};
pub use source::{compile, program};
pub use sourced::Sourced;
