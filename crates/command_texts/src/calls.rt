ghost use Rattle.std.specs.Prelude.{◌≡◌};
ghost use Rattle.command_texts.specs.Rows.{rows_by, call_rows};

use super::kind::Kind;
use super::row::Row;

/// Refused sources, by their calls, statements and sizes.
pub const CALLS: [Row; 14] = [
    (
        Kind::Refused,
        58,
        "a value for a reference, a constant array for a parameter that may write into it, an \
            array for a plain parameter",
        "`f(&x) x = 1;`\n    `main() { f(2); }`",
        "give a variable; declare the parameter `const`, or as an array",
    ),
    (
        Kind::Refused,
        59,
        "a call without an argument that has no default",
        "`f(x) return x;`\n    `main() { f(); }`",
        "give it, or give the parameter a default",
    ),
    (
        Kind::Refused,
        60,
        "one parameter given twice",
        "`f(x, y = 1) return x + y;`\n    `main() { f(1, .x = 2); }`",
        "give it once",
    ),
    (
        Kind::Refused,
        61,
        "more arguments than parameters",
        "`f(x) return x;`\n    `main() { f(1, 2); }`",
        "drop some; a native with `...` takes any number",
    ),
    (
        Kind::Refused,
        62,
        "a value twice in a `switch`, or a range that ends below its start",
        "`main() { switch (1) { case 1: ; case 0 .. 5: ; } }`",
        "keep one; begin ranges with the least value",
    ),
    (
        Kind::Refused,
        63,
        "`break` or `continue` outside a loop",
        "`main() { break; }`",
        "take it out: a case doesn't fall through; or move it into a loop",
    ),
    (
        Kind::Refused,
        64,
        "`return` with a value and `return` without one in one function",
        "`f(x) { if (x) return 1; return; }`\n    `main() { f(1); }`",
        "use one form: `return 0` in place of `return` alone",
    ),
    (
        Kind::Refused,
        65,
        "a forward or a second body with another head; `main` or an `entry` function with \
            parameters",
        "`forward f(a);`\n    `f(b) return b;`\n    `main() { f(1); }`",
        "write the same head, with the same names of parameters, defaults and tags; or leave \
            the forward out, since functions are known everywhere",
    ),
    (
        Kind::Refused,
        66,
        "an operator without a tagged parameter, or a native one",
        "`operator+(a, b) return 1;`\n    `main() { }`",
        "tag a parameter; let an operator with a body call the native",
    ),
    (
        Kind::Refused,
        67,
        "a division by a constant 0",
        "`main() { return 1 / 0; }`",
        "divide by something else",
    ),
    (
        Kind::Refused,
        68,
        "an array of 0 cells or of more than 1,048,576, locals of more cells than that, data of \
            more than 4,194,304",
        "`new a[0];`\n    `main() { }`",
        "make it smaller, and of 1 cell at least",
    ),
    (
        Kind::Refused,
        69,
        "code of more weight than 4,194,304, where each value of a case counts",
        "`main() { switch (1) { case 0 .. 3000000: ; } }`",
        "split the program; test wide ranges by `if`",
    ),
    (
        Kind::Refused,
        70,
        "`#pragma dynamic` outside of 0 to 16,777,216 cells",
        "`#pragma dynamic -1`\n    `main() { }`",
        "ask for a number of cells within that",
    ),
    (
        Kind::Refused,
        71,
        "neither `main` nor a public function",
        "`f() { }`",
        "write `main() { }`, or begin a function's name with `@`",
    ),
];

/// These rows.
#[tactic(auto, unfolding(crate::specs::Rows::call_rows))]
pub fn calls() -> &'static [Row]
    ensures { rows_by result.now ≡ call_rows }
{
    &CALLS
}
