//! The rules of types: which program and which warnings stand for a tree, and which rules a tree
//! breaks. Definitions, and laws about them.
#![tactic(auto)]

mod fault;
mod literal_counts;
mod program_laws;
mod statement_counts;

pub use fault::{
    ARGUMENT_KIND, ARGUMENT_MISSING, ARGUMENT_TWICE, ARRAY_NOT_INDEXED, BAD_OPERATOR, CASE_TWICE,
    CONSTANT_DIVIDE_BY_ZERO, CONSTANT_NEEDED, FALLBACK_TWICE, HEAD_DIFFERS, INDEX_OUTSIDE,
    LIMIT_ARRAY, LIMIT_CODE, LIMIT_DYNAMIC, MIXED_AUTOMATA, NO_FUNCTIONS, NOT_AN_ARRAY,
    NOT_ASSIGNABLE, OUTSIDE_LOOP, REDEFINED, RETURN_MIXED, SIZES_DIFFER, STATE_TWICE,
    TOO_MANY_ARGUMENTS, UNDEFINED, UNKNOWN_AUTOMATON, UNKNOWN_STATE,
};
pub use literal_counts::literals_are_counted;
pub use program_laws::{at_most_one_program, stands_within_sums};
pub use statement_counts::statements_are_counted;
