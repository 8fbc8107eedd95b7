ghost use Rattle.std.specs.Prelude.{◌≡◌};
ghost use Rattle.pawn_cells.specs.Constants as spec;

/// A constant that every source has.
#[derive(Clone, Copy, Debug, PartialEq, Eq)]
pub struct Constant {
    pub value: i32,
    /// Whether its tag is `bool`. Else it has none.
    pub is_bool: bool,
}

impl Constant {
    fn number(value: i32) -> Option<Constant>
        ensures { result ≡ spec.number value }
    {
        Some(Constant {
            value,
            is_bool: false,
        })
    }

    fn truth(holds: bool) -> Option<Constant>
        ensures { result ≡ spec.boolean holds }
    {
        Some(Constant {
            value: i32::from(holds),
            is_bool: true,
        })
    }
}

/// The predefined constant with this name (Language Guide, "Predefined constants").
pub fn predefined(name: &[u8]) -> Option<Constant>
    ensures { result ≡ spec.predefined name.now }
{
    if name == b"true".as_slice() {
        Constant::truth(true)
    } else if name == b"false".as_slice() {
        Constant::truth(false)
    } else if name == b"EOS".as_slice() {
        Constant::number(0)
    } else if name == b"cellbits".as_slice() {
        Constant::number(32)
    } else if name == b"cellmax".as_slice() {
        Constant::number(i32::MAX)
    } else if name == b"cellmin".as_slice() {
        Constant::number(i32::MIN)
    } else if name == b"charbits".as_slice() {
        Constant::number(8)
    } else {
        None
    }
}
