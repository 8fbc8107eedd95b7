ghost use Rattle.std.specs.Prelude.{◌≡◌};
ghost use Rattle.command_texts.specs.Rows.{rows_by, input_rows};

use super::kind::Kind;
use super::row::Row;

/// Refused images and scripts.
pub const INPUTS: [Row; 11] = [
    (
        Kind::BadImage,
        120,
        "fewer than 72 bytes",
        "a short text in an image's place",
        "give the image that a sleep of this file has put",
    ),
    (
        Kind::BadImage,
        121,
        "other first bytes than an image's",
        "a source in an image's place",
        "give the image that a sleep of this file has put",
    ),
    (
        Kind::BadImage,
        122,
        "another version of images",
        "an image that was changed",
        "give the image that a sleep of this file has put",
    ),
    (
        Kind::BadImage,
        123,
        "the digest of another file",
        "the image of another file, or of this one before it was compiled anew",
        "give the image that a sleep of this file has put",
    ),
    (
        Kind::BadImage,
        124,
        "another number of cells than the file's machine",
        "an image that was changed",
        "give the image that a sleep of this file has put",
    ),
    (
        Kind::BadImage,
        125,
        "HEA, STK or CIP with no place in the file's memory or code",
        "an image that was changed",
        "give the image that a sleep of this file has put",
    ),
    (
        Kind::BadImage,
        126,
        "in version 1 a cell between heap and stack that isn't 0",
        "an image that was changed",
        "give the image that a sleep of this file has put",
    ),
    (
        Kind::BadImage,
        127,
        "in version 2 another length than its cells want",
        "an image that was cut",
        "give the image that a sleep of this file has put",
    ),
    (
        Kind::BadScript,
        130,
        "no JSON: a comma too many, `01`, a byte order mark, 128 open brackets",
        "`{\"natives\": [],}`",
        "write JSON, in UTF-8",
    ),
    (
        Kind::BadScript,
        131,
        "another form in the field that is named: a field that there isn't, a native without a \
            name or with another's, `error` beside others, `1.0` for `1`",
        "`{\"others\": 1}`",
        "see the forms in docs/SCRIPTS.md",
    ),
    (
        Kind::BadScript,
        132,
        "a number, a length or a count outside its range in the field that is named",
        "`{\"natives\": [{\"name\": \"p\", \"forms\": [\"cells:0\"]}]}`",
        "keep the ranges of docs/SCRIPTS.md",
    ),
];

/// These rows.
#[tactic(auto, unfolding(crate::specs::Rows::input_rows))]
pub fn inputs() -> &'static [Row]
    ensures { rows_by result.now ≡ input_rows }
{
    &INPUTS
}
