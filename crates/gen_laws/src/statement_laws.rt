ghost use Rattle.gen_laws.specs.StmtMeans.{StmtMeans};
ghost use Rattle.gen_laws.specs.StmtFits.{StmtFits};

/// The code of each valid statement, in every file of the program in which it lies, does what the
/// statement means and is left as the statement is, where calls with fewer turns do what they mean.
pub fn statements_mean()
    ensures { StmtMeans }
{}

/// The code of each valid statement is whole instructions with valid operands. Its jumps, switches
/// and case tables lead to starts in it, to its end, or to the exits of the loop around. With
/// twenty cells more it is within the statement's lean weight.
pub fn statements_fit()
    ensures { StmtFits }
{}
