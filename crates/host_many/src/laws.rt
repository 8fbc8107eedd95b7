ghost use Rattle.host_many.specs.Apart.{EachIsItsOwn, NoneSeesAnother};
ghost use Rattle.host_many.specs.Cuts.{CutsPrintTheTrace, StepsAddUp};

/// The lines of each machine, and its state, are those that its own events give.
pub fn each_machine_is_its_own()
    ensures { EachIsItsOwn }
{}

/// No machine sees another: two hosts that agree on one and on its events give it the same lines and
/// the same state.
pub fn no_machine_sees_another()
    ensures { NoneSeesAnother }
{}

/// Steps that were all used up, and further ones, are those of both together.
pub fn steps_add_up()
    ensures { StepsAddUp }
{}

/// A machine that is started once at main prints the lines of its file's trace, however its steps
/// are cut.
pub fn cuts_print_the_trace()
    ensures { CutsPrintTheTrace }
{}
