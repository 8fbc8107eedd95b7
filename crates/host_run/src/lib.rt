//! A machine's run under a script: natives bound, sessions with their lines, and runs in segments.
#![tactic(auto)]

mod bound;
mod calls;
mod end;
mod entry;
mod guest;
mod laws;
mod lines;
mod run;
mod sessions;
mod writes;

pub use bound::{BindFault, Bound, BoundNative, bind};
pub use end::{SessionEnd, TraceEnd};
pub use entry::{MAIN, entry_of};
pub use laws::sessions_are_bounded;
pub use run::run_segments;
pub use sessions::{Part, session, session_behind};
