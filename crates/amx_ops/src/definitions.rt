ghost use Rattle.amx_ops.specs.Cuts.{TraceIsOneIteration};
ghost use Rattle.amx_ops.specs.Keeps.{KeepsStates};
ghost use Rattle.amx_ops.specs.Written.{CodeIsInstructions};

/// The trace of a file over a list of bounds is one iteration of the machine, cut at each sleep and
/// at each bound that is used up. Each sleep is shown by one event, and a segment from a
/// configuration with events shows the same behind them.
#[tactic(auto, using(crate::proofs::ShownLaws::trace_is_one_iteration_lem))]
pub fn trace_is_one_iteration()
    ensures { TraceIsOneIteration }
{}

/// What every state keeps is kept: by a load, a start, a step, a native's answer, and so by a
/// trace.
#[tactic(auto, using(crate::proofs::KeepsLaws::keeps_states))]
pub fn states_stay_states()
    ensures { KeepsStates }
{}

/// Valid code is a list of instructions one behind another, and each such list is read back from
/// its cells.
#[tactic(auto, using(crate::proofs::WrittenLaws::code_is_instructions))]
pub fn code_is_instructions()
    ensures { CodeIsInstructions }
{}
