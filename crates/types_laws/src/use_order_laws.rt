ghost use Rattle.types_laws.specs.Rising.{UsesRise};
ghost use Rattle.types_laws.specs.ValuesRising.{ValuesRise};

/// The pairs of occurrences and declarations rise by the occurrences' tokens, where the tree
/// spells a list of tokens.
pub fn uses_rise()
    ensures { UsesRise }
{}

/// The pairs of constants and values rise by the tokens of the constants' names, where the tree
/// spells a list of tokens and its names are resolved.
pub fn values_rise()
    ensures { ValuesRise }
{}
