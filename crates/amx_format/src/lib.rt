//! The bytes of an AMX file: the relation between bytes and an `Amx`, the writer and the reader.
#![tactic(auto)]

mod check;
mod encoding;
mod fault;
mod file;
mod header;
mod names;
mod number;
mod place;
mod reader;
mod sort;
mod writer;

pub use encoding::Encoding;
pub use fault::FormatFault;
pub use file::{
    a_file_is_of_one_amx, code_place, file_size, is_compact, sorted_tables_stay,
    what_is_written_is_read,
};
pub use header::{FILE_LIMIT, HEADER, MEMORY_LIMIT, RECORD};
pub use reader::read;
pub use writer::write;
