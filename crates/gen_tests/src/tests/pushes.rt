use super::frames::{is_code, one};
use super::shapes::n;
use amx_ops::Op;
use pawn_base::List;
use pawn_meaning::{Arg, Array, Expr, Operator, Scalar};
use std::alloc::Global;
use std::boxed::Box;
use std::process::Abort;
use std::test::Fail;

/// A call of function 0 with one argument.
fn call(alloc: Global, argument: Arg) -> Result<Expr, Fail> {
    let mut all = List::new(alloc);
    all.push(argument)?;
    Ok(Expr::Call(0, all))
}

/// Whether an argument's code is an instruction with its operand, before the count of the bytes and
/// the call.
fn is_pushed(alloc: Global, argument: Arg, op: Op, operand: i32) -> Result<bool, Fail> {
    let wanted = [n(op), operand, n(Op::PushC), 4, n(Op::Call), 0];
    is_code(alloc, call(alloc, argument)?, &wanted)
}

/// Two constants with an operator.
fn product(alloc: Global) -> Result<Expr, Fail> {
    let x = Box::new(alloc, Expr::Const(2))?;
    let y = Box::new(alloc, Expr::Const(3))?;
    Ok(Expr::Binary(Operator::Multiply, x, y))
}

/// The first parameter and 1.
fn sum(alloc: Global) -> Result<Expr, Fail> {
    let y = Box::new(alloc, Expr::Const(1))?;
    Ok(Expr::Binary(Operator::Add, one(alloc)?, y))
}

/// A known argument is pushed by PUSH.C, and a direct place's cell by PUSH and PUSH.S.
#[test]
fn values(rt: HostRuntime) -> Result<(), Fail> {
    let alloc = rt.alloc();
    assert!(rt; is_pushed(alloc, Arg::Value(Expr::Const(7)), Op::PushC, 7)?);
    assert!(rt; is_pushed(alloc, Arg::Value(Expr::Const(0)), Op::PushC, 0)?);
    assert!(rt; is_pushed(alloc, Arg::Value(product(alloc)?), Op::PushC, 6)?);
    let global = Arg::Value(Expr::Read(Scalar::Global(0)));
    assert!(rt; is_pushed(alloc, global, Op::Push, 0)?);
    let slot = Arg::Value(Expr::Read(Scalar::Slot(0)));
    assert!(rt; is_pushed(alloc, slot, Op::PushS, 12)?);
    Ok(())
}

/// What a parameter refers to, and a value that is made, come to PRI first.
#[test]
fn values_from_pri(rt: HostRuntime) -> Result<(), Fail> {
    let alloc = rt.alloc();
    let through = call(alloc, Arg::Value(Expr::Read(Scalar::Through(1))))?;
    let wanted = [
        n(Op::LrefSPri),
        16,
        n(Op::PushPri),
        n(Op::PushC),
        4,
        n(Op::Call),
        0,
    ];
    assert!(rt; is_code(alloc, through, &wanted)?);
    let made = call(alloc, Arg::Value(sum(alloc)?))?;
    let wanted = [
        n(Op::LoadSPri),
        12,
        n(Op::AddC),
        1,
        n(Op::PushPri),
        n(Op::PushC),
        4,
        n(Op::Call),
        0,
    ];
    assert!(rt; is_code(alloc, made, &wanted)?);
    Ok(())
}

/// The address of an object is known, a local's is FRM and its offset, and a parameter that refers
/// has it in its cell.
#[test]
fn addresses(rt: HostRuntime) -> Result<(), Fail> {
    let alloc = rt.alloc();
    assert!(rt; is_pushed(alloc, Arg::Ref(Scalar::Global(0)), Op::PushC, 0)?);
    assert!(rt; is_pushed(alloc, Arg::Ref(Scalar::Slot(0)), Op::PushAdr, 12)?);
    assert!(rt; is_pushed(alloc, Arg::Ref(Scalar::Through(1)), Op::PushS, 16)?);
    assert!(rt; is_pushed(alloc, Arg::Whole(Array::Object(0)), Op::PushC, 0)?);
    assert!(rt; is_pushed(alloc, Arg::Whole(Array::SlotArray(0)), Op::PushAdr, 12)?);
    assert!(rt; is_pushed(alloc, Arg::Whole(Array::ParamArray(2, true)), Op::PushS, 20)?);
    Ok(())
}

/// The last argument is pushed first.
#[test]
fn order(rt: HostRuntime) -> Result<(), Fail> {
    let alloc = rt.alloc();
    let mut all = List::new(alloc);
    all.push(Arg::Value(Expr::Const(1)))?;
    all.push(Arg::Value(Expr::Const(2)))?;
    let wanted = [
        n(Op::PushC),
        2,
        n(Op::PushC),
        1,
        n(Op::PushC),
        8,
        n(Op::Call),
        0,
    ];
    assert!(rt; is_code(alloc, Expr::Call(0, all), &wanted)?);
    Ok(())
}

/// A left operand that waits is pushed so too.
#[test]
fn left_operands(rt: HostRuntime) -> Result<(), Fail> {
    let alloc = rt.alloc();
    let five = Box::new(alloc, Expr::Const(5))?;
    let known = Expr::Binary(Operator::Subtract, five, Box::new(alloc, sum(alloc)?)?);
    let wanted = [
        n(Op::PushC),
        5,
        n(Op::LoadSPri),
        12,
        n(Op::AddC),
        1,
        n(Op::PopAlt),
        n(Op::SubAlt),
    ];
    assert!(rt; is_code(alloc, known, &wanted)?);
    Ok(())
}

/// A known 0 has an instruction without an operand.
#[test]
fn zeros(rt: HostRuntime) -> Result<(), Fail> {
    let alloc = rt.alloc();
    assert!(rt; is_code(alloc, Expr::Const(0), &[n(Op::ZeroPri)])?);
    assert!(rt; is_code(alloc, Expr::Const(-1), &[n(Op::ConstPri), -1])?);
    let zero = Box::new(alloc, Expr::Const(0))?;
    let both = Expr::Binary(Operator::Or, one(alloc)?, zero);
    assert!(rt;
        is_code(
            alloc,
            both,
            &[n(Op::LoadSPri), 12, n(Op::ZeroAlt), n(Op::Or)]
        )?
    );
    Ok(())
}
