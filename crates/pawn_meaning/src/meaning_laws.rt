ghost use Rattle.pawn_meaning.specs.Extends.{LaterTurnsExtend, TurnsNeverFall};
ghost use Rattle.pawn_meaning.specs.FoldMeans.{FoldMeans};
ghost use Rattle.pawn_meaning.specs.NeedIsSmall.{NeedIsSmall};
ghost use Rattle.pawn_meaning.specs.RunsExtend.{RunsExtend};
ghost use Rattle.pawn_meaning.specs.RunsGrow.{RunsGrow};

/// A greater bound on turns only extends a meaning. An end within the lesser bound stays with its
/// events; a cut has used that bound up exactly, and what follows it has more turns.
#[tactic(auto, using(crate::proofs::LaterTurns::later_turns_extend_lem))]
pub fn later_turns_extend()
    ensures { LaterTurnsExtend }
{}

/// Along the events of a meaning, and to its end, turns and peaks never fall.
#[tactic(auto, using(crate::proofs::LaterTurns::turns_never_fall_lem))]
pub fn turns_never_fall()
    ensures { TurnsNeverFall }
{}

/// An expression folds to a value exactly where it is built of constants and built-in operators
/// alone, and its meaning gives that value and leaves the world as it was.
pub fn fold_means()
    ensures { FoldMeans }
{}

/// A greater bound on turns only extends the run of a program.
pub fn runs_extend()
    ensures { RunsExtend }
{}

/// Each node, each statement with so many turns in one another, and the run of a program lead to
/// later worlds: entries come at the end, turns and peak never fall.
pub fn runs_grow()
    ensures { RunsGrow }
{}

/// In a program within the limits the need of a function is its number of parameters, 3, and at
/// most the limits on locals and on the weight.
pub fn need_is_small()
    ensures { NeedIsSmall }
{}
