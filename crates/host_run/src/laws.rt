ghost use Rattle.host_run.specs.StepCount.{SessionsAreBounded};

/// A `session` does at most as many steps as are asked, answers that the bound is used up only
/// where it did them all, and else did at least the one that ended it.
#[tactic(auto, using(crate::proofs::CountLaws::sessions_bounded))]
pub fn sessions_are_bounded()
    ensures { SessionsAreBounded }
{}
