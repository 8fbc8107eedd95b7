ghost use Rattle.std.specs.Prelude.{◌≡◌};
ghost use Rattle.check_expressions.specs.Faults as spec;

use check_nodes::PartFault;

/// Which of two parts' faults is told: that of the first, unless it only falls.
fn told(first: PartFault, second: PartFault) -> PartFault
    ensures { result ≡ spec.told first second }
{
    match first {
        PartFault::Source { .. } => first,
        PartFault::Fallen => second,
        PartFault::Memory => first,
    }
}

/// Two parts that don't depend on each other, or which fault is told of them.
pub fn both<A: Drop, B: Drop>(
    x: Result<A, PartFault>,
    y: Result<B, PartFault>,
) -> Result<(A, B), PartFault>
    ensures { result ≡ spec.both_of x y }
{
    match x {
        Ok(x) => match y {
            Ok(y) => Ok((x, y)),
            Err(fault) => Err(fault),
        },
        Err(first) => match y {
            Ok(_y) => Err(first),
            Err(second) => Err(told(first, second)),
        },
    }
}
