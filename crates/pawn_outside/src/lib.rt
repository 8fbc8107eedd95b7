//! The outside as the compiler and the machine see it: files that are read and put by name, and a
//! sink that takes bytes. Each is a trait whose contract says what every answer means; a fake in
//! memory, whose contract says everything; and an adapter over the host, which tells nothing and is
//! the trusted edge.
#![tactic(auto)]

mod fault;
mod files;
mod host_files;
mod host_sink;
mod lines;
mod memory_files;
mod memory_sink;
mod schedule;
mod sink;

pub use fault::SinkFault;
pub use files::{Files, PutAnswer, ReadAnswer};
pub use host_files::HostFiles;
pub use host_sink::HostSink;
pub use lines::say;
pub use memory_files::MemoryFiles;
pub use memory_sink::MemorySink;
pub use pawn_base::{Bytes, Memory};
pub use sink::{Sink, WriteAnswer};
