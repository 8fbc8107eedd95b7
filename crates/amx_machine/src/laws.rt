ghost use Rattle.amx_machine.specs.Bounded.{RunsAreBounded};
ghost use Rattle.amx_machine.specs.Unseen.{DeadIsUnseen};

/// A machine's `run` does at most as many steps as are asked. Of one that hasn't ended it answers
/// Going exactly where each of so many steps goes on, and has then done them all.
#[tactic(auto, using(crate::proofs::BoundedLaws::runs_bounded))]
pub fn runs_are_bounded()
    ensures { RunsAreBounded }
{}

/// A step sees live cells alone. Of two states with the same registers and live cells it has the
/// same outcome and the same registers, and each cell is the same in both or was dead and is as it
/// was in each. A step that goes on changes no cell that is dead before and behind it, and of the
/// others HALT 12 alone does.
#[tactic(auto, using(crate::proofs::UnseenLaws::dead_unseen))]
pub fn dead_cells_are_unseen()
    ensures { DeadIsUnseen }
{}
