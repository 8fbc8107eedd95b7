ghost use Rattle.std.specs.Prelude.{◌≡◌};
ghost use Rattle.command_texts.specs.Rows.{rows_by, line_rows};

use super::kind::Kind;
use super::row::Row;

/// Refused sources, by their lines and tokens.
pub const LINES: [Row; 18] = [
    (
        Kind::Refused,
        1,
        "a directive that there isn't",
        "`#emit 1`\n    `main() { }`",
        "write one of `#assert #define #else #elseif #endif #endinput #error #if #include \
            #pragma #tryinclude #undef`; there is no `#emit`, `#file`, `#line`, `#section`, \
            `#warning`",
    ),
    (
        Kind::Refused,
        2,
        "`#if`, `#elseif`, `#else` and `#endif` don't balance within one file",
        "`#if 1`\n    `main() { }`",
        "close each `#if` by one `#endif` in the same file, and write `#else` once, last",
    ),
    (
        Kind::Refused,
        3,
        "an include that isn't there: a name is looked for from the folder in which the program \
            is started, not beside the source, and `.inc` is put behind a name without a dot",
        "`#include <float>`\n    `main() { }`",
        "start the program where the name leads to the file, or give the way to it: `#include \
            \"include/console\"`; no include is built in, so declare by `native` what the host \
            offers; `#tryinclude` passes over a missing file",
    ),
    (
        Kind::Refused,
        4,
        "an `#error` that is reached",
        "`#error not for this host`\n    `main() { }`",
        "meet what its line asks for",
    ),
    (
        Kind::Refused,
        5,
        "an `#assert` that doesn't hold",
        "`#assert cellbits == 16`\n    `main() { }`",
        "meet what its line asks for",
    ),
    (
        Kind::Refused,
        6,
        "a `#define` whose pattern is none: a pattern begins with a name and ends at the first \
            blank; a parameter `%0` to `%9` stands in it once, neither last nor directly before \
            another, and the text has no others",
        "`#define TWICE(%1, %2) (%1)`\n    `main() { }`",
        "leave out blanks in the pattern: `#define TWICE(%1,%2) (%1)`; write a sign behind each \
            parameter",
    ),
    (
        Kind::Refused,
        7,
        "more than 1,000 substitutions in one line",
        "`#define A A`\n    `main() { A; }`",
        "break the circle of definitions",
    ),
    (
        Kind::Refused,
        8,
        "includes more than 16 deep in one another",
        "a.inc includes b.inc, which includes c.inc, and so on to r.inc",
        "include from fewer files",
    ),
    (
        Kind::Refused,
        9,
        "a line of more than 4,095 bytes, as it stands or once it is expanded",
        "`#define A 1111111111111111111111111111111111111111`\n    `#define B A A A A A A A A A \
            A A`\n    `#define C B B B B B B B B B B B`\n    `C`",
        "split the line or its definitions",
    ),
    (
        Kind::Refused,
        10,
        "more than 1,048,576 bytes in all lines once they are expanded",
        "300 lines of 4,000 bytes",
        "split the source",
    ),
    (
        Kind::Refused,
        11,
        "a condition, or the number of a `#pragma`, that is no expression of numbers: a name \
            that nothing defines isn't 0",
        "`#if debug > 1`\n    `#endif`\n    `main() { }`",
        "ask `#if defined debug` first; write numbers, characters, operators, `defined NAME`, \
            `cellbits`, `cellmax`, `cellmin`, `charbits`, `true`, `false`",
    ),
    (
        Kind::Refused,
        12,
        "a comment that isn't closed",
        "`/* main() { }`",
        "close it by `*/`; a comment doesn't stand in another",
    ),
    (
        Kind::Refused,
        20,
        "a byte that begins no token outside of texts and characters: a backquote, `$`, `\\`, \
            `#` within a line, one above 127",
        "`` main() { return `1; } ``",
        "take it out; at the first line of a file it is mostly a byte order mark, which no \
            editor shows: save the file as UTF-8 without one; keep letters above 127 within \
            texts and comments; write `\"C:\\\\x\"` for a raw text",
    ),
    (
        Kind::Refused,
        21,
        "a bad number: letters behind its digits, a prefix without digits, a point with digits \
            behind it",
        "`main() { return 1.5; }`",
        "write digits alone, `0x` and hexadecimal digits, or `0b` and binary ones; there is no \
            `Float`: count in a smaller unit (1500 for 1.5), with a tag and operators of your \
            own as in examples/fixed.p",
    ),
    (
        Kind::Refused,
        22,
        "a number of 2^32 or more",
        "`main() { return 4294967296; }`",
        "write a smaller one; a cell has 32 bits",
    ),
    (
        Kind::Refused,
        23,
        "a text or a character that isn't closed on its line, or a character that isn't one byte",
        "`main() { return 'ab'; }`",
        "close a text by `\"` on its line, or go on behind a `\\` at the line's end; write one \
            byte or one escape between `'` and `'`; a letter above 127 is several bytes, so \
            write it in a text; write `1000000` for `1'000'000`",
    ),
    (
        Kind::Refused,
        25,
        "a name of more than 31 bytes",
        "`new abcdefghijklmnopqrstuvwxyzabcdef;`\n    `main() { }`",
        "shorten it",
    ),
    (
        Kind::Refused,
        26,
        "a bad escape in a text or a character",
        "`main() { new s[] = \"\\q\"; return s[0]; }`",
        "write one of `\\a \\b \\e \\f \\n \\r \\t \\v \\' \\\" \\% \\\\`, or a number up to \
            255 as `\\65;` or `\\x41;`",
    ),
];

/// These rows.
#[tactic(auto, unfolding(crate::specs::Rows::line_rows))]
pub fn lines() -> &'static [Row]
    ensures { rows_by result.now ≡ line_rows }
{
    &LINES
}
