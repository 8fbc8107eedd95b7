ghost use Rattle.std.specs.Prelude.{◌≡◌};
ghost use Rattle.command_texts.specs.Rows.{rows_by, tree_rows};

use super::kind::Kind;
use super::row::Row;

/// Refused sources, by their tree and their automata.
pub const TREES: [Row; 7] = [
    (
        Kind::Refused,
        30,
        "no rule of the grammar goes on at this token, or the tree has more than 1,024 levels",
        "`main() { goto end; }`",
        "look at this token and the one before it; not in this language: `goto` and labels, \
            enumerations with sizes, tags or steps and `enum T: { }`, more than one constant \
            behind `const`, `public` variables, natives with `= name`, `...` in a function with \
            a body, variables with states, `defined` outside of `#if`, lists as arguments, \
            `f(1,,2)`, texts joined by `...`, a call without parentheses before a sign as `p \
            !x`; docs/LANGUAGE.md says what to write in their place",
    ),
    (
        Kind::Refused,
        31,
        "more than 256 open brackets at a token",
        "`main() { return` and 257 of `(`",
        "split the expression",
    ),
    (
        Kind::Refused,
        40,
        "`state` with an automaton that no classifier names",
        "`f() <a:s> { }`\n    `main() { state b:s; }`",
        "name an automaton of a classifier",
    ),
    (
        Kind::Refused,
        41,
        "`state` with a state that no classifier of its automaton names",
        "`f() <s> { }`\n    `main() { state t; }`",
        "write a function for the state, or spell it as its classifier does",
    ),
    (
        Kind::Refused,
        42,
        "one state in two bodies of a function",
        "`f() <s> { }`\n    `f() <s> { }`\n    `main() { f(); }`",
        "name each state once",
    ),
    (
        Kind::Refused,
        43,
        "two bodies of a function with `<>`",
        "`f() <> { }`\n    `f() <> { }`\n    `main() { f(); }`",
        "keep one fallback",
    ),
    (
        Kind::Refused,
        44,
        "bodies of one function for two automata, or with a classifier and without, or an \
            `entry` function without one",
        "`f() <a:s> { }`\n    `f() <b:t> { }`\n    `main() { f(); }`",
        "give all the same automaton",
    ),
];

/// These rows.
#[tactic(auto, unfolding(crate::specs::Rows::tree_rows))]
pub fn trees() -> &'static [Row]
    ensures { rows_by result.now ≡ tree_rows }
{
    &TREES
}
