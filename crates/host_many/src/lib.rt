//! Several machines side by side: a schedule starts them and gives them steps.
#![tactic(auto)]

mod host;
mod laws;
mod seat;
mod served;
mod standing;
mod turn;

pub use host::{AddFault, Host};
pub use laws::{
    cuts_print_the_trace, each_machine_is_its_own, no_machine_sees_another, steps_add_up,
};
pub use served::Served;
pub use standing::Standing;
pub use turn::Turn;
