//! Images of a machine at a sleep.
#![tactic(auto)]

mod buffer;
mod examine;
mod fault;
mod images;
mod number;
mod place;
mod restore;
mod save;
mod version;

pub use buffer::ImageBuffer;
pub use fault::ImageFault;
pub use images::{an_image_is_of_one_state, images_keep_the_trace};
pub use restore::restore_into;
pub use save::{digest, save_into};
