ghost use Rattle.gen_laws.specs.CodeMeans.{CodeMeans};

/// The code of a valid expression, appended to any code and to whatever waits there: it is whole
/// instructions without a fault, whose waiting operands are those of its calls, within the
/// expression's lean weight, and it does what the expression means.
pub fn code_means()
    ensures { CodeMeans }
{}
