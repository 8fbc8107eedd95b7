ghost use Rattle.meaning_laws.specs.NothingIsMissing.{NothingIsMissing};
ghost use Rattle.meaning_laws.specs.NumbersAreInRange.{NumbersAreInRange};

/// Each number of an object, a function, a native or an automaton that a run of a valid program
/// comes to is one of the program: whatever stands behind its own, it means the same.
pub fn numbers_are_in_range()
    ensures { NumbersAreInRange }
{}

/// A run of a valid program asks for nothing that isn't there: whatever end stands for that, it
/// means the same. So a stray access is an index outside an array whose size isn't known, a native
/// that can't see an argument by its form, or a first function with parameters.
pub fn nothing_is_missing()
    ensures { NothingIsMissing }
{}
