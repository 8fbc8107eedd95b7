use super::frames::{one, taken};
use pawn_meaning::{Array, Expr, Scalar};
use std::alloc::Global;
use std::boxed::Box;
use std::process::Abort;
use std::test::Fail;

/// An element of an array.
fn element(alloc: Global, array: Array) -> Result<Expr, Fail> {
    let held = Box::new(alloc, array)?;
    Ok(Expr::Read(Scalar::Element(held, one(alloc)?)))
}

#[test]
fn cells(rt: HostRuntime) -> Result<(), Fail> {
    let alloc = rt.alloc();
    for place in [Scalar::Global(0), Scalar::Slot(0), Scalar::Through(1)] {
        assert_eq!(rt; taken(alloc, Expr::Read(place))?, (2, 0));
    }
    Ok(())
}

#[test]
fn elements(rt: HostRuntime) -> Result<(), Fail> {
    let alloc = rt.alloc();
    let of_object = element(alloc, Array::Object(0))?;
    assert_eq!(rt; taken(alloc, of_object)?, (5, 0));
    let within_bounds = element(alloc, Array::ParamArray(2, true))?;
    assert_eq!(rt; taken(alloc, within_bounds)?, (7, 0));
    let grid = Box::new(alloc, Array::ParamArray(3, true))?;
    let of_row = element(alloc, Array::Row(grid, one(alloc)?))?;
    assert_eq!(rt; taken(alloc, of_row)?, (17, 0));
    let line = Box::new(alloc, Array::ParamArray(2, true))?;
    let of_rest = element(alloc, Array::From(line, one(alloc)?))?;
    assert_eq!(rt; taken(alloc, of_rest)?, (12, 0));
    Ok(())
}

#[test]
fn characters(rt: HostRuntime) -> Result<(), Fail> {
    let alloc = rt.alloc();
    let object = Box::new(alloc, Array::Object(0))?;
    let character = Expr::Read(Scalar::Char(object, one(alloc)?));
    assert_eq!(rt; taken(alloc, character)?, (9, 0));
    Ok(())
}
