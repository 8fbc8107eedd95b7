//! Code does what the program means: laws of the code of expressions, of statements and of whole
//! programs. No code of the compiler is here.
#![tactic(auto)]

mod expression_laws;
mod program_laws;
mod statement_laws;

pub use expression_laws::code_means;
pub use program_laws::{code_is_valid, files_agree, programs_agree, programs_have_files};
pub use statement_laws::{statements_fit, statements_mean};
