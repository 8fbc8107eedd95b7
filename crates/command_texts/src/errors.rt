ghost use Rattle.std.specs.Prelude.{◌≡◌};
ghost use Rattle.command_texts.specs.Rows.{rows_by, error_rows};

use super::kind::Kind;
use super::row::Row;

/// Errors of runs.
pub const ERRORS: [Row; 11] = [
    (
        Kind::Error,
        2,
        "an assertion that doesn't hold",
        "`main() { assert 0; }`",
        "make true what is asserted",
    ),
    (
        Kind::Error,
        3,
        "heap and stack met: a recursion too deep, or a room too small",
        "`f() { f(); }`\n    `main() { f(); }`",
        "recurse less; ask for more cells by `#pragma dynamic`",
    ),
    (
        Kind::Error,
        4,
        "an index outside an array whose size is known",
        "`new a[2];`\n    `main() { new i = 2; return a[i]; }`",
        "index from 0 to the size less 1",
    ),
    (
        Kind::Error,
        5,
        "a read or a write outside of the memory in use, mostly through a parameter `a[]` whose \
            size isn't known",
        "`f(a[]) return a[100000];`\n    `main() { new b[2]; return f(b); }`",
        "hand the size on, `size = sizeof a`, and keep within it",
    ),
    (
        Kind::Error,
        6,
        "an instruction that isn't one: a jump to a computed address",
        "a file that no compiler makes",
        "mend the file",
    ),
    (
        Kind::Error,
        7,
        "more is taken from the stack than is on it",
        "a file that no compiler makes",
        "mend the file",
    ),
    (
        Kind::Error,
        8,
        "the heap ends below its start",
        "a file that no compiler makes",
        "mend the file",
    ),
    (
        Kind::Error,
        10,
        "a native whose argument the script can't see or write so: another number of arguments \
            than forms, a write to what is no reference",
        "`native p(x);`\n    `main() p(1);`\n    with the script `{\"natives\": [{\"name\": \
            \"p\", \"forms\": []}]}`",
        "give the native one form an argument, `ref` or `cells:N` where the script writes",
    ),
    (
        Kind::Error,
        11,
        "a division by 0",
        "`new z;`\n    `main() { return 1 / z; }`",
        "test the divisor",
    ),
    (
        Kind::Error,
        13,
        "a call in a state for which the function has no body",
        "`step() <on> { }`\n    `main() { step(); }`",
        "give it a fallback `step() <> { }`, or set the state first",
    ),
    (
        Kind::Error,
        19,
        "a native called by a computed number that the file hasn't",
        "a file that no compiler makes",
        "mend the file",
    ),
];

/// These rows.
#[tactic(auto, unfolding(crate::specs::Rows::error_rows))]
pub fn errors() -> &'static [Row]
    ensures { rows_by result.now ≡ error_rows }
{
    &ERRORS
}
