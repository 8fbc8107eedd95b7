ghost use Rattle.types_laws.specs.ValidExpressions.{ExpressionsAreValid};
ghost use Rattle.types_laws.specs.SortedPublics.{PublicsAreSorted};

/// An expression that stands is valid, where what is known around it is.
pub fn expressions_are_valid()
    ensures { ExpressionsAreValid }
{}

/// The publics of a program that stands are in the order of their names' bytes.
pub fn publics_are_sorted()
    ensures { PublicsAreSorted }
{}
