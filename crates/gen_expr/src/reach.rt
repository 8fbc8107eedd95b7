ghost use Rattle.std.specs.Prelude.{◌≡◌, ◌*◌, IfOk, Some, option_map};
ghost use Rattle.pawn_arrays.specs.Sizes.{inner_sizes};
ghost use Rattle.pawn_meaning.specs.Scope.{known_extent, open_extent, row_extent, rest_extent};
ghost use Rattle.gen_sim.specs.IndexCode.{in_characters};
ghost use Rattle.gen_laws.specs.ExprCode.{known_size};
ghost use Rattle.gen_expr.specs.Standing.{extent_of};

use pawn_base::Memory;
use pawn_meaning::Shape;

/// How far an array reaches, where there is one: its sizes, or those behind a first one that isn't
/// known.
#[derive(Clone, Copy, Debug)]
pub enum Reach {
    Nothing,
    Known(Shape),
    Open(Option<u32>, Option<u32>),
}

/// Of any first size. No array has more than two sizes behind it.
pub fn open(inner: &[u32]) -> Result<Reach, Memory>
    ensures { IfOk result (λ reach. extent_of reach ≡ Some (open_extent inner.now)) }
{
    match inner {
        [] => Ok(Reach::Open(None, None)),
        [second] => Ok(Reach::Open(Some(*second), None)),
        [second, third] => Ok(Reach::Open(Some(*second), Some(*third))),
        _ => Err(Memory),
    }
}

/// Of all sizes known.
fn known(first: Option<u32>, second: Option<u32>) -> Reach
    ensures { extent_of result ≡ known_extent (inner_sizes first second) }
{
    match (first, second) {
        (None, _) => Reach::Nothing,
        (Some(first), None) => Reach::Known(Shape {
            first,
            second: None,
            third: None,
        }),
        (Some(first), Some(second)) => Reach::Known(Shape {
            first,
            second: Some(second),
            third: None,
        }),
    }
}

/// What a first index leads to.
pub fn row_of(reach: Reach) -> Reach
    ensures { extent_of result ≡ row_extent (extent_of reach) }
{
    match reach {
        Reach::Nothing => Reach::Nothing,
        Reach::Known(shape) => known(shape.second, shape.third),
        Reach::Open(second, third) => known(second, third),
    }
}

/// The rest from an element on.
pub fn rest_of(reach: Reach) -> Reach
    ensures { extent_of result ≡ rest_extent (extent_of reach) }
{
    match reach {
        Reach::Nothing => Reach::Nothing,
        Reach::Known(shape) => Reach::Open(shape.second, shape.third),
        Reach::Open(second, third) => Reach::Open(second, third),
    }
}

/// The first size, where it is known.
pub fn size_of(reach: Reach) -> Option<u64>
    ensures { result ≡ known_size (extent_of reach) }
{
    match reach {
        Reach::Nothing => None,
        Reach::Known(shape) => Some(u64::from(shape.first)),
        Reach::Open(..) => None,
    }
}

/// How many characters that is.
pub fn characters_of(reach: Reach) -> Option<u64>
    ensures { result ≡ in_characters (known_size (extent_of reach)) }
{
    match reach {
        Reach::Nothing => None,
        Reach::Known(shape) => Some(4 * u64::from(shape.first)),
        Reach::Open(..) => None,
    }
}
