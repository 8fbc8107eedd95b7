use super::frames::{one, taken};
use pawn_meaning::{Array, Expr, Operator, Prefix, Scalar};
use std::boxed::Box;
use std::process::Abort;
use std::test::Fail;

#[test]
fn operators(rt: HostRuntime) -> Result<(), Fail> {
    let alloc = rt.alloc();
    assert_eq!(rt; taken(alloc, Expr::Const(-7))?, (2, 0));
    let inverse = Expr::Unary(Prefix::Invert, one(alloc)?);
    assert_eq!(rt; taken(alloc, inverse)?, (3, 0));
    let sum = Expr::Binary(Operator::Add, one(alloc)?, one(alloc)?);
    assert_eq!(rt; taken(alloc, sum)?, (5, 0));
    let rest = Expr::Binary(Operator::Remainder, one(alloc)?, one(alloc)?);
    assert_eq!(rt; taken(alloc, rest)?, (6, 0));
    let by_user = Expr::Operate(0, one(alloc)?, one(alloc)?, true);
    assert_eq!(rt; taken(alloc, by_user)?, (12, 1));
    let one_by_user = Expr::OperateOne(0, one(alloc)?);
    assert_eq!(rt; taken(alloc, one_by_user)?, (7, 1));
    Ok(())
}

#[test]
fn choices(rt: HostRuntime) -> Result<(), Fail> {
    let alloc = rt.alloc();
    let both = Expr::And(one(alloc)?, one(alloc)?);
    assert_eq!(rt; taken(alloc, both)?, (11, 0));
    let either = Expr::Or(one(alloc)?, one(alloc)?);
    assert_eq!(rt; taken(alloc, either)?, (12, 0));
    let choice = Expr::Cond(one(alloc)?, one(alloc)?, one(alloc)?);
    assert_eq!(rt; taken(alloc, choice)?, (10, 0));
    let comma = Expr::Seq(one(alloc)?, one(alloc)?);
    assert_eq!(rt; taken(alloc, comma)?, (4, 0));
    Ok(())
}

#[test]
fn updates(rt: HostRuntime) -> Result<(), Fail> {
    let alloc = rt.alloc();
    let assigned = Expr::Assign(Scalar::Global(0), one(alloc)?);
    assert_eq!(rt; taken(alloc, assigned)?, (4, 0));
    let updated = Expr::Update(Scalar::Slot(0), Operator::Add, one(alloc)?);
    assert_eq!(rt; taken(alloc, updated)?, (7, 0));
    let by_user = Expr::UpdateBy(Scalar::Through(1), 0, false, one(alloc)?, Some(1));
    assert_eq!(rt; taken(alloc, by_user)?, (23, 2));
    let before = Expr::Step(Scalar::Global(0), -1, true);
    assert_eq!(rt; taken(alloc, before)?, (6, 0));
    let behind = Expr::Step(Scalar::Global(0), 1, false);
    assert_eq!(rt; taken(alloc, behind)?, (8, 0));
    let before_by_user = Expr::StepBy(Scalar::Global(0), 0, true);
    assert_eq!(rt; taken(alloc, before_by_user)?, (12, 1));
    let behind_by_user = Expr::StepBy(Scalar::Global(0), 0, false);
    assert_eq!(rt; taken(alloc, behind_by_user)?, (14, 1));
    Ok(())
}

#[test]
fn copies(rt: HostRuntime) -> Result<(), Fail> {
    let alloc = rt.alloc();
    let to = Box::new(alloc, Array::SlotArray(0))?;
    let from = Box::new(alloc, Array::Object(0))?;
    assert_eq!(rt; taken(alloc, Expr::Copy(to, from, 3))?, (9, 0));
    Ok(())
}
