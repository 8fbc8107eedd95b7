ghost use Rattle.std.specs.Prelude.{◌≡◌, [], map, IfOk};
ghost use Rattle.pawn_meaning.specs.View.{public_view};
ghost use Rattle.types_rules.specs.Publics.{sorted};

use pawn_base::{List, Memory};
use pawn_meaning::Public;

/// Public functions in the order of their names' bytes, those of one name in the order that they
/// have (Language Guide, "Functions").
///
/// # Errors
///
/// `Memory` for want of memory.
pub fn sort_publics(publics: Vec<Public>) -> Result<List<Public>, Memory>
    ensures { IfOk result (λ list. map public_view list ≡
        sorted [] (map public_view publics.items)) }
{
    let mut publics = publics;
    publics.sort_by(|a, b| a.name.as_slice().cmp(b.name.as_slice()))?;
    Ok(List::from_vec(publics))
}
