ghost use Rattle.std.specs.Prelude.{◌≡◌};

use pawn_cells::Place;
use pawn_verdict::{CheckFault, broken};

/// A name without a declaration.
pub const UNKNOWN: u8 = 50;

/// A name twice in one block.
pub const TWICE: u8 = 51;

/// A constant is wanted, and none stands.
pub const NOT_CONSTANT: u8 = 57;

/// A division by zero.
pub const BY_ZERO: u8 = 67;

/// A rule that is broken.
#[derive(Clone, Copy)]
pub struct Fault {
    pub kind: u8,
    pub place: Place,
}

impl Fault {
    /// A constant is wanted in the node at a place, and none stands.
    pub fn not_constant(place: Place) -> CheckFault
        ensures { result ≡ CheckFault.Source 57 place }
    {
        broken(NOT_CONSTANT, place)
    }
}
