ghost use Rattle.pawn_usage.specs.LiveCallsAreChains.{LiveCallsAreChains};
ghost use Rattle.pawn_usage.specs.UsageIsEnough.{UsageIsEnough};

/// Whatever a program does, the functions of the calls that are alive are a chain.
#[tactic(auto, using(crate::proofs::LiveCalls::live_calls_are_chains_lem))]
pub fn live_calls_are_chains()
    ensures { LiveCallsAreChains }
{}

/// Where no chain of a program needs more than some cells, no run of it does; and a file of it ends
/// with error 3 only where its script gives that, in each room of those cells and the spare ones.
#[tactic(auto, using(crate::proofs::EnoughLaws::usage_is_enough_lem))]
pub fn usage_is_enough()
    ensures { UsageIsEnough }
{}
