ghost use Rattle.std.specs.Prelude.{◌≡◌};
ghost use Rattle.command_texts.specs.Rows.{rows, rows_in};

use super::calls::calls;
use super::errors::errors;
use super::files::files;
use super::inputs::inputs;
use super::lines::lines;
use super::listings::listings;
use super::row::Row;
use super::statuses::statuses;
use super::trees::trees;
use super::values::values;

/// All rows, in the order of docs/FAULTS.md.
pub fn tables() -> [&'static [Row]; 9]
    ensures { rows_in result ≡ rows }
{
    [
        statuses(),
        lines(),
        trees(),
        values(),
        calls(),
        listings(),
        errors(),
        files(),
        inputs(),
    ]
}
