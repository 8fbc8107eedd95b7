//! What the commands come to together: the file that `compile` puts is valid, and its run with the
//! resumes behind it is what the source means.
#![tactic(auto)]

mod laws;

pub use laws::what_is_compiled_runs_as_it_means;
