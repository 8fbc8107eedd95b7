ghost use Rattle.types_rules.specs.OneProgram.{AtMostOneProgram, NoFaultStands};
ghost use Rattle.types_rules.specs.Sums.{StandsWithinSums};

/// At most one program and list of warnings stands for a tree and a room, and none where there is a
/// fault.
pub fn at_most_one_program()
    ensures one { AtMostOneProgram }
    ensures none { NoFaultStands }
{}

/// What stands is within the limits on the cells of the data and on the weight.
pub fn stands_within_sums()
    ensures { StandsWithinSums }
{}
