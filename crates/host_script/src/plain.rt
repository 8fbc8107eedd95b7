ghost use Rattle.std.specs.Prelude.{◌≡◌, Ok, IfOk};
ghost use Rattle.host_script.specs.Ranges.{IsScript};
ghost use Rattle.host_script.specs.Script.{plain};

use super::script::Script;
use pawn_base::{List, Memory};
use std::alloc::Global;

/// The script that stands where none is given: every native sees all its arguments as cells and
/// answers 0.
pub fn plain_script(alloc: Global) -> Result<Script, Memory>
    ensures script { result ≡ Ok plain }
    ensures ranges { IfOk result IsScript }
{
    Ok(Script {
        others: true,
        natives: List::new(alloc),
        answers: List::new(alloc),
    })
}
