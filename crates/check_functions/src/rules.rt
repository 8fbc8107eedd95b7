ghost use Rattle.types_rules.specs.Functions as spec;
ghost use Rattle.check_functions.specs.Finds.{Finds};

use pawn_tree::At;
use pawn_verdict::{CheckFault, broken};

/// A broken rule at a token, where a test says so.
pub fn fault_if(test: bool, kind: u8, at: At) -> Result<(), CheckFault>
    ensures { Finds (spec.fault_if test kind at) result }
{
    if test {
        Err(broken(kind, at.place))
    } else {
        Ok(())
    }
}
