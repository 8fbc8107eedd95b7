//! The program as a call: its words, its commands, its status; and the same over the host's files
//! and standard output.
#![tactic(auto)]

mod command;
mod file_sizes;
mod host;
mod list;
mod sizes;
mod texts;
mod verify;
mod version;

pub use command::pawn;
pub use command_parts::Status;
pub use host::run;
