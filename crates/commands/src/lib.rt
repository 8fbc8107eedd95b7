//! The commands run, resume, compile, go, assemble, sample and usage.
#![tactic(auto)]

mod assembles;
mod bind;
mod command_laws;
mod compiles;
mod counted;
mod goes;
mod image;
mod lines;
mod natives;
mod play;
mod put_file;
mod ready_file;
mod ready_segment;
mod resumes;
mod runs;
mod samples;
mod sources;
mod usage_lines;
mod usages;
mod wake;

pub use assembles::assemble;
pub use bind::bind_natives;
pub use command_laws::{
    good_files_are_read, good_images_are_read, good_is_assembled, good_is_compiled, good_is_gone,
    good_is_resumed, good_is_run, good_programs_start, good_sources_go, put_is_resumed,
};
pub use compiles::compile;
pub use goes::go;
pub use lines::say_warnings;
pub use ready_segment::{ReadySegment, run_on};
pub use resumes::{IMAGE_LIMIT, resume};
pub use runs::{run, runnable};
pub use samples::sample;
pub use sources::compiled_source;
pub use usages::usage;
