//! A machine as a host embeds it: each call may be made in each mode and with each number, and
//! tells by a refusal what it doesn't do. What C holds is a pointer that owns one.
#![tactic(auto)]

mod calls;
mod event;
mod files;
mod handle;
mod held;
mod images;
mod load_fault;
mod memory;
mod modes;
mod refusal;
mod slot;
mod start;
mod text;
mod written;

pub use amx_machine::{Event, Mode};
pub use event::SulkhenEvent;
pub use handle::Sulkhen;
pub use held::Held;
pub use load_fault::LoadFault;
pub use refusal::{Refusal, code_of};
pub use slot::SulkhenSlot;
