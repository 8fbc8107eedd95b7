ghost use Rattle.std.specs.Prelude.{◌≡◌};
ghost use Rattle.command_texts.specs.Rows.{rows_by, listing_rows};

use super::kind::Kind;
use super::row::Row;

/// Refused texts of `assemble`, and the warning.
pub const LISTINGS: [Row; 6] = [
    (
        Kind::Refused,
        140,
        "a line that no listing has behind the lines before it, or a line that isn't there",
        "`00000008 PROCX` (line 4), `00000000 HALT +0` (3), `flags 2` (1), two blanks, a line \
            behind `end`, no `end` (8), an empty text (1)",
        "write the line as `list` does",
    ),
    (
        Kind::Refused,
        144,
        "a header that asks for too large a file",
        "`code 33554433` (line 1)",
        "ask for fewer cells of code, data and room: together 33,554,432 at most",
    ),
    (
        Kind::Refused,
        141,
        "an address that isn't four times the cells before it",
        "`0000000a PROC` (line 4)",
        "count four for each cell before the line, in the code or in the data",
    ),
    (
        Kind::Refused,
        142,
        "other cells than the header counts",
        "the text without its line 6 (told at `data`, 6), `data 1` (told at `end`, 8)",
        "mend `code` or `data` in the first line",
    ),
    (
        Kind::Refused,
        143,
        "code that `verify` would refuse",
        "`00000008 JUMP 4` and `00000010 RETN` in place of lines 4 to 6 (line 4); an entry at \
            an operand (1)",
        "see the numbers from 100 to 107",
    ),
    (
        Kind::Warning,
        213,
        "a tested value whose tag isn't the wanted one",
        "`new Float:x = 1;`\n    `main() { }`",
        "give the value the tag by `tag:`",
    ),
];

/// These rows.
#[tactic(auto, unfolding(crate::specs::Rows::listing_rows))]
pub fn listings() -> &'static [Row]
    ensures { rows_by result.now ≡ listing_rows }
{
    &LISTINGS
}
