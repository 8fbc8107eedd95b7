ghost use Rattle.std.specs.Prelude.{◌≡◌};
ghost use Rattle.command_texts.specs.Rows.{rows_by, file_rows};

use super::kind::Kind;
use super::row::Row;

/// Files that are no valid ones.
pub const FILES: [Row; 20] = [
    (
        Kind::Invalid,
        80,
        "compact cells that end between two cells",
        "a file of `compile --compact` that was cut",
        "write the file again",
    ),
    (
        Kind::Invalid,
        81,
        "compact cells that end inside a cell",
        "a file of `compile --compact` that was cut",
        "write the file again",
    ),
    (
        Kind::Invalid,
        82,
        "a compact cell of more than five bytes",
        "a file of `compile --compact` that was changed",
        "write the file again",
    ),
    (
        Kind::Invalid,
        83,
        "bytes behind the last compact cell",
        "a file of `compile --compact` that was changed",
        "write the file again",
    ),
    (
        Kind::Invalid,
        90,
        "fewer than 56 bytes",
        "a short text in a file's place",
        "name an AMX file",
    ),
    (
        Kind::Invalid,
        91,
        "another magic number than an AMX file's with cells of 32 bits",
        "a text in a file's place, as a source",
        "name an AMX file, made for cells of 32 bits",
    ),
    (
        Kind::Invalid,
        92,
        "another version of the file than 8, or one of the machine outside 1 to 8",
        "a file of another Pawn",
        "compile its source by this program",
    ),
    (
        Kind::Invalid,
        93,
        "records of its tables that aren't 8 bytes",
        "a file of another Pawn",
        "compile its source by this program",
    ),
    (
        Kind::Invalid,
        94,
        "places in its header that don't rise in whole records and cells, or more than \
            134,217,728 bytes of memory",
        "a file that was changed",
        "write the file again",
    ),
    (
        Kind::Invalid,
        95,
        "a name that begins outside the table of names",
        "a file that was changed",
        "write the file again",
    ),
    (
        Kind::Invalid,
        96,
        "a name without its zero byte before the code",
        "a file that was changed",
        "write the file again",
    ),
    (
        Kind::Invalid,
        97,
        "a size in its header that isn't that of its bytes",
        "a file that was cut",
        "write the file again",
    ),
    (
        Kind::Invalid,
        100,
        "a cell of code that is no instruction's number",
        "a file of another Pawn, with instructions above 137",
        "write the file again, or compile its source by this program",
    ),
    (
        Kind::Invalid,
        101,
        "an instruction that passes the end of the code",
        "a file that was changed",
        "write the file again",
    ),
    (
        Kind::Invalid,
        102,
        "a jump or a call to where no instruction begins",
        "a file that was changed",
        "write the file again",
    ),
    (
        Kind::Invalid,
        103,
        "a case table with a negative count or an address where no instruction begins, or a \
            switch that names none",
        "a file that was changed",
        "write the file again",
    ),
    (
        Kind::Invalid,
        104,
        "a call of a native that the table of natives hasn't",
        "a file that was changed",
        "write the file again",
    ),
    (
        Kind::Invalid,
        105,
        "a register that there isn't",
        "a file that was changed",
        "write the file again",
    ),
    (
        Kind::Invalid,
        106,
        "a number of bytes that the instruction doesn't take",
        "a file that was changed",
        "write the file again",
    ),
    (
        Kind::Invalid,
        107,
        "a main or a public where no instruction begins",
        "a file that was changed",
        "write the file again",
    ),
];

/// These rows.
#[tactic(auto, unfolding(crate::specs::Rows::file_rows))]
pub fn files() -> &'static [Row]
    ensures { rows_by result.now ≡ file_rows }
{
    &FILES
}
