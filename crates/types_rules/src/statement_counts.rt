ghost use Rattle.types_rules.specs.CountedStatements.{StatementsAreCounted};

/// A statement that stands makes as many slots and objects as are counted in its tree.
pub fn statements_are_counted()
    ensures { StatementsAreCounted }
{}
