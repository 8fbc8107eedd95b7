ghost use Rattle.types_laws.specs.GoodSources.{SourcesAreGood};
ghost use Rattle.types_laws.specs.KnownAround.{AroundsAreKnown, TypedProgramsAreWithinLimits};
ghost use Rattle.types_laws.specs.NamedPrograms.{ProgramsHaveNames, TagsAreFew};
ghost use Rattle.types_laws.specs.SmallTokens.{TokensAreSmall};
ghost use Rattle.types_laws.specs.TokenSizes.{TokensAreWithinBytes};
ghost use Rattle.types_laws.specs.ValidPrograms.{ProgramsAreValid};
ghost use Rattle.types_laws.specs.ValidRoutes.{RoutesAreValid};
ghost use Rattle.types_laws.specs.WrittenTrees.{TreesAreWritten};

use super::program_laws::{
    bodies_are_valid, files_are_sites, functions_are_headed, heads_are_same,
    programs_are_within_limits,
};
use super::validity_laws::publics_are_sorted;

/// A tree that small tokens spell is as a source has it.
fn trees_are_written()
    ensures { TreesAreWritten }
{}

/// The numbers of tokens are cells, and the bytes of their names and texts are bytes, where those
/// of the lines are.
fn tokens_are_small()
    ensures { TokensAreSmall }
{}

/// Names, key words and signs together have no more bytes than the lines.
fn tokens_are_within_bytes()
    ensures { TokensAreWithinBytes }
{}

/// What can be called in a source that stands is a function of its program, with the parameters of
/// the head that its calls see.
fn arounds_are_known()
    ensures { AroundsAreKnown }
{
    heads_are_same();
    functions_are_headed();
}

/// A program that stands is within the limits, and its objects are valid.
fn typed_programs_are_within_limits()
    ensures { TypedProgramsAreWithinLimits }
{
    arounds_are_known();
    programs_are_within_limits();
}

/// Each function of a program is routed as it should be, and each automaton is valid.
fn routes_are_valid()
    ensures { RoutesAreValid }
{}

/// A program that stands is valid, where its tree is as a source has it.
fn programs_are_valid()
    ensures { ProgramsAreValid }
{
    arounds_are_known();
    typed_programs_are_within_limits();
    bodies_are_valid();
    files_are_sites();
    functions_are_headed();
    heads_are_same();
    routes_are_valid();
}

/// The names of a program that stands are names, they have no more bytes together than the tokens
/// of its source, and those of its publics stand in their order.
fn programs_have_names()
    ensures { ProgramsHaveNames }
{
    publics_are_sorted();
}

/// There are no more tags than 32 bits can number.
fn tags_are_few()
    ensures { TagsAreFew }
{}

/// The program that stands for lines of bytes is valid, within the limits, and has names as those
/// of a source.
pub fn sources_are_good()
    ensures { SourcesAreGood }
{
    tokens_are_small();
    tokens_are_within_bytes();
    trees_are_written();
    tags_are_few();
    programs_are_valid();
    typed_programs_are_within_limits();
    programs_have_names();
}
