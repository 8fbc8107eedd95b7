ghost use Rattle.std.specs.Prelude.{◌≡◌};
ghost use Rattle.command_texts.specs.Rows.{rows_by, value_rows};

use super::kind::Kind;
use super::row::Row;

/// Refused sources, by their names and values.
pub const VALUES: [Row; 8] = [
    (
        Kind::Refused,
        50,
        "a name that nothing declares here, the name of a function as a value, a call of what \
            is no function",
        "`f() return 1;`\n    `main() { f; }`",
        "call a function with its parentheses, also without arguments: `f()`; declare a \
            variable or a constant before its use, a native by its head; `charmax`, `debug`, \
            `numargs` and others of other Pawns aren't built in",
    ),
    (
        Kind::Refused,
        51,
        "a name twice in one block, an operator twice for the same tags",
        "`main() { new x; new x; }`",
        "rename one",
    ),
    (
        Kind::Refused,
        52,
        "an assignment to what isn't a variable",
        "`const c = 1;`\n    `main() { c = 2; }`",
        "assign to a variable; declare it without `const`",
    ),
    (
        Kind::Refused,
        53,
        "an index or a list for what is no array, `sizeof` of what has no such size",
        "`main() { new x; return x[0]; }`",
        "declare an array: `new x[10]`",
    ),
    (
        Kind::Refused,
        54,
        "an array or a text where one cell is wanted",
        "`f() { new s[4]; return s; }`\n    `main() { f(); }`",
        "index it; no function returns an array: give it a parameter `out[]` and let it write \
            there; choose between texts by `if`, not by `? :`; declare a text as an array: `new \
            s[] = \"abc\"`",
    ),
    (
        Kind::Refused,
        55,
        "sizes that differ: a copy between two sizes, too many first values, an array for a \
            parameter of another size",
        "`main() { new a[2], b[3]; a = b; }`",
        "give both the same size; copy cell by cell where sizes are open; a parameter `x[]` \
            takes any size",
    ),
    (
        Kind::Refused,
        56,
        "a constant index outside the array",
        "`main() { new a[2]; return a[2]; }`",
        "index from 0 to the size less 1",
    ),
    (
        Kind::Refused,
        57,
        "a constant is wanted and missing: a size, a case or a first value that is none, a \
            second size left out, a default of an array",
        "`new const n[][] = { \"on\", \"off\" };`\n    `main() { }`",
        "give the second size, that of the longest text and its zero: `new const n[][4]`; write \
            a number, a constant or `sizeof` for a size; give first values outside of functions \
            that are constant; leave out the default of an array parameter and give a text at \
            each call",
    ),
];

/// These rows.
#[tactic(auto, unfolding(crate::specs::Rows::value_rows))]
pub fn values() -> &'static [Row]
    ensures { rows_by result.now ≡ value_rows }
{
    &VALUES
}
