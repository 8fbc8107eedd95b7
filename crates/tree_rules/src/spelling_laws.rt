ghost use Rattle.tree_rules.specs.OneTree.{AtMostOneTree};
ghost use Rattle.tree_rules.specs.UnitGives.{UnitIsComplete, UnitIsSpelled};

/// At most one tree spells a list of tokens, of whatever height.
pub fn at_most_one_tree()
    ensures { AtMostOneTree }
{}

/// What the parser as a definition gives is a tree of 1,024 levels at most that spells the tokens.
pub fn unit_is_spelled()
    ensures { UnitIsSpelled }
{}

/// It gives each tree of 1,024 levels at most that spells the tokens.
pub fn unit_is_complete()
    ensures { UnitIsComplete }
{}
