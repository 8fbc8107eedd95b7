ghost use Rattle.types_rules.specs.CountedLiterals.{LiteralsAreCounted};

/// An expression that stands has as many literals as are counted in its tree.
pub fn literals_are_counted()
    ensures { LiteralsAreCounted }
{}
