ghost use Rattle.names_rules.specs.Extends.{FaultsStay, NodesExtend};
ghost use Rattle.names_rules.specs.FaultKinds.{FaultKinds};
ghost use Rattle.names_rules.specs.KnownIsMeant.{KnownIsMeant};
ghost use Rattle.names_rules.specs.OneNames.{AtMostOneNames, ResolvedIsWhole};
ghost use Rattle.names_rules.specs.PathFinds.{PathFinds, PathHas};
ghost use Rattle.names_rules.specs.ResolvedMeans.{ResolvedMeans};

/// At most one set of pairs stands for a tree, and none where a node breaks a rule of names.
pub fn at_most_one_names()
    ensures one { AtMostOneNames }
    ensures whole { ResolvedIsWhole }
{}

/// What is known of a name is what is known of the declaration that an occurrence of it means.
pub fn known_is_meant()
    ensures { KnownIsMeant }
{}

/// Tables, one a block with the innermost first, find the declaration that an occurrence means, and
/// the innermost one has the names of the block around.
pub fn path_finds()
    ensures means { PathFinds }
    ensures has { PathHas }
{}

/// The marks of a node stand behind those before it, and the faults of marks stay where others
/// follow.
pub fn faults_stay()
    ensures nodes { NodesExtend }
    ensures stay { FaultsStay }
{}

/// Each fault of a tree has the number 50, 51, 57 or 67.
pub fn fault_kinds()
    ensures { FaultKinds }
{}

/// In a tree whose names are resolved each occurrence has its declaration, no name stands twice
/// in one block, and each constant has its value.
pub fn resolved_means()
    ensures { ResolvedMeans }
{}
