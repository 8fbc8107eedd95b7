ghost use Rattle.std.specs.Prelude.{◌≡◌};

use check_nodes::PartFault;
use pawn_tree::At;

/// The node at a token breaks a rule.
pub fn part_broken(kind: u8, at: At) -> PartFault
    ensures { result ≡ PartFault.Source kind at.place }
{
    PartFault::Source {
        kind,
        place: at.place,
    }
}
