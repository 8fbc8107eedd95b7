//! The abstract machine for C: one export a call, each over one call of `host_embed`. `sulkhen.h`
//! declares them.
#![tactic(auto)]

mod border;
mod files;
mod images;
mod memory;
mod natives;
mod runs;
mod sources;

pub use files::{
    sulkhen_native_name, sulkhen_native_number, sulkhen_natives, sulkhen_public_number,
};
pub use images::{sulkhen_image, sulkhen_restore, sulkhen_save};
pub use memory::{sulkhen_place, sulkhen_read, sulkhen_text, sulkhen_write, sulkhen_write_text};
pub use natives::{
    sulkhen_answer, sulkhen_argument, sulkhen_arguments, sulkhen_fail, sulkhen_park,
};
pub use runs::{sulkhen_free, sulkhen_load, sulkhen_mode, sulkhen_run, sulkhen_start};
pub use sources::{
    sulkhen_compile, sulkhen_compiled, sulkhen_hold, sulkhen_refusal, sulkhen_sources_free,
    sulkhen_sources_new, sulkhen_warning, sulkhen_warnings,
};
