/// A state of an automaton that no classifier names.
pub const UNKNOWN_AUTOMATON: u8 = 40;

/// A state that no classifier of its automaton names.
pub const UNKNOWN_STATE: u8 = 41;

/// A state that stands twice in the classifiers of a function.
pub const STATE_TWICE: u8 = 42;

/// A second fallback of a function.
pub const FALLBACK_TWICE: u8 = 43;

/// Bodies of a function, or items of a classifier, that name several automata; a body without a
/// classifier beside one that has it.
pub const MIXED_AUTOMATA: u8 = 44;

/// A name without a declaration, or one that means no value here.
pub const UNDEFINED: u8 = 50;

/// A name, or an operator for the same tags, that is declared twice.
pub const REDEFINED: u8 = 51;

/// A value, a constant or a literal that is assigned to.
pub const NOT_ASSIGNABLE: u8 = 52;

/// What has no such dimension.
pub const NOT_AN_ARRAY: u8 = 53;

/// An array where one cell is wanted.
pub const ARRAY_NOT_INDEXED: u8 = 54;

/// Sizes, dimensions or first values that don't fit.
pub const SIZES_DIFFER: u8 = 55;

/// A constant index outside its array.
pub const INDEX_OUTSIDE: u8 = 56;

/// What should be constant, or is missing.
pub const CONSTANT_NEEDED: u8 = 57;

/// An argument of another kind than its parameter.
pub const ARGUMENT_KIND: u8 = 58;

/// A parameter without an argument and without a default.
pub const ARGUMENT_MISSING: u8 = 59;

/// A parameter that is given two arguments.
pub const ARGUMENT_TWICE: u8 = 60;

/// More arguments than parameters.
pub const TOO_MANY_ARGUMENTS: u8 = 61;

/// A case value that stands twice, or a range that ends below its start.
pub const CASE_TWICE: u8 = 62;

/// `break` or `continue` outside a loop.
pub const OUTSIDE_LOOP: u8 = 63;

/// A function that returns with a value and without one.
pub const RETURN_MIXED: u8 = 64;

/// Heads of one function that differ.
pub const HEAD_DIFFERS: u8 = 65;

/// A head that no operator may have.
pub const BAD_OPERATOR: u8 = 66;

/// A constant divisor that is 0.
pub const CONSTANT_DIVIDE_BY_ZERO: u8 = 67;

/// A size below 1, or too many cells.
pub const LIMIT_ARRAY: u8 = 68;

/// A program that is too heavy.
pub const LIMIT_CODE: u8 = 69;

/// A room outside its range.
pub const LIMIT_DYNAMIC: u8 = 70;

/// A source without `main` and without a public function.
pub const NO_FUNCTIONS: u8 = 71;
