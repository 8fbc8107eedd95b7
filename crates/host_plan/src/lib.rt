//! Plans: a text that names machines by their files, and lists events for them.
#![tactic(auto)]

mod laws;
mod line;
mod plan;
mod reading;
mod word;

pub use laws::a_text_has_one_answer;
pub use plan::{MOST_MACHINES, MachineFiles, Plan, PlanFault};
pub use reading::read_plan;
pub use word::LONGEST_NAME;
