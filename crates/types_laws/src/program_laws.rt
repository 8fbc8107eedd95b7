ghost use Rattle.types_laws.specs.HeadedFunctions.{FunctionsAreHeaded};
ghost use Rattle.types_laws.specs.SameHeads.{HeadsAreSame};
ghost use Rattle.types_laws.specs.WithinLimits.{ProgramsAreWithinLimits};
ghost use Rattle.types_laws.specs.ValidBodies.{BodiesAreValid};
ghost use Rattle.types_laws.specs.FileSites.{FilesAreSites};
ghost use Rattle.types_laws.specs.ValidStatements.{StatementsAreValid};
ghost use Rattle.types_laws.specs.GoodArrays.{ArraysAreGood};
ghost use Rattle.types_laws.specs.PlainExpressions.{ExpressionsArePlain};

use super::validity_laws::expressions_are_valid;
use types_rules::stands_within_sums;

/// The value of an expression that stands is a cell, its tag a number, and its literals are the
/// texts in it.
pub fn expressions_are_plain()
    ensures { ExpressionsArePlain }
{}

/// The sizes and first cells of an array that stands are those of an object, within the limits.
pub fn arrays_are_good()
    ensures { ArraysAreGood }
{}

/// A statement that stands is valid, where what is known around it is.
pub fn statements_are_valid()
    ensures { StatementsAreValid }
{
    expressions_are_valid();
}

/// The objects and bodies of declarations that stand are valid and within the limits, where what is
/// known around them is.
pub fn bodies_are_valid()
    ensures { BodiesAreValid }
{
    expressions_are_valid();
}

/// Where declarations stand, each head that was known before all heads were is the head in the end.
pub fn heads_are_same()
    ensures { HeadsAreSame }
{}

/// Each function of a program takes the parameters of the head that its calls see.
pub fn functions_are_headed()
    ensures { FunctionsAreHeaded }
{
    heads_are_same();
}

/// At the beginning of a file names mean what is there, tags are numbers, and bodies call natives
/// that are the program's.
pub fn files_are_sites()
    ensures { FilesAreSites }
{}

/// A program that stands is within the limits, where what can be called is a function of it.
pub fn programs_are_within_limits()
    ensures { ProgramsAreWithinLimits }
{
    bodies_are_valid();
    files_are_sites();
    stands_within_sums();
}
