//! The listing of a file as text, line by line, and the file of such a text.
#![tactic(auto)]

mod assembler;
mod draft;
mod fault;
mod finish;
mod header;
mod header_line;
mod instruction;
mod kind;
mod last;
mod laws;
mod line;
mod listing;
mod reader;
mod record;

pub use assembler::assemble;
pub use fault::AsmFault;
pub use header::Header;
pub use kind::Kind;
pub use laws::a_text_lists_one_file;
pub use listing::list;
