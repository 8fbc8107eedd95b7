use super::frames::{one, taken};
use pawn_base::List;
use pawn_meaning::{Arg, Array, Comparison, Expr, Link, Scalar};
use std::alloc::Global;
use std::process::Abort;
use std::test::Fail;

/// So many comparisons of one operand with others.
fn chain(alloc: Global, count: u32, function: Option<u32>) -> Result<Expr, Fail> {
    let mut links = List::new(alloc);
    for _link in 0..count {
        links.push(Link {
            op: Comparison::Less,
            operand: Expr::Const(1),
            function,
            swapped: false,
        })?;
    }
    Ok(Expr::Chain(one(alloc)?, links))
}

/// An argument of each kind.
fn arguments(alloc: Global) -> Result<List<Arg>, Fail> {
    let mut all = List::new(alloc);
    all.push(Arg::Value(Expr::Const(1)))?;
    all.push(Arg::Ref(Scalar::Global(0)))?;
    all.push(Arg::Whole(Array::Object(0)))?;
    all.push(Arg::Temp(Expr::Const(1)))?;
    Ok(all)
}

#[test]
fn chains(rt: HostRuntime) -> Result<(), Fail> {
    let alloc = rt.alloc();
    assert_eq!(rt; taken(alloc, chain(alloc, 0, None)?)?, (2, 0));
    assert_eq!(rt; taken(alloc, chain(alloc, 1, None)?)?, (5, 0));
    assert_eq!(rt; taken(alloc, chain(alloc, 2, None)?)?, (19, 0));
    assert_eq!(rt; taken(alloc, chain(alloc, 3, None)?)?, (28, 0));
    assert_eq!(rt; taken(alloc, chain(alloc, 2, Some(0))?)?, (31, 2));
    Ok(())
}

#[test]
fn calls(rt: HostRuntime) -> Result<(), Fail> {
    let alloc = rt.alloc();
    assert_eq!(rt; taken(alloc, Expr::Call(0, List::new(alloc)))?, (4, 1));
    assert_eq!(rt; taken(alloc, Expr::Call(0, arguments(alloc)?))?, (18, 1));
    assert_eq!(rt; taken(alloc, Expr::Native(0, List::new(alloc)))?, (6, 0));
    assert_eq!(rt; taken(alloc, Expr::Native(0, arguments(alloc)?))?, (20, 0));
    Ok(())
}
