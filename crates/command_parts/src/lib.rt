//! What all commands share: the words of a command line, the files that are read and put, and
//! where a command stops.
#![tactic(auto)]

mod asked_words;
mod command;
mod command_words;
mod measure_words;
mod name;
mod named_stop;
mod options;
mod program;
mod putting;
mod read;
mod script;
mod status;
mod stop;
mod telling;
mod valid;

pub use asked_words::MOST_NUMBER;
pub use command::{
    AssembleWords, Command, CompileWords, GoWords, ResumeWords, RunWords, SampleWords,
};
pub use command_words::{WordsFault, read_words};
pub use measure_words::MOST_FUNCTIONS;
pub use name::Name;
pub use named_stop::{no_entry, no_file, refused, unregistered};
pub use options::{DEFAULT_SLEEPS, DEFAULT_STEPS};
pub use program::{Program, ReadProgram, read_program};
pub use putting::put;
pub use read::{FILE_LIMIT, SOURCE_LIMIT, read_bytes};
pub use script::{SCRIPT_LIMIT, read_script_file};
pub use status::Status;
pub use stop::Stop;
pub use telling::{tell_stop, told};
pub use valid::{read_valid, valid_file};
