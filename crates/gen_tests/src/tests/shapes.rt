use super::frames::{is_code, is_effect, one};
use amx_ops::Op;
use pawn_meaning::{Expr, Operator, Scalar};
use std::alloc::Global;
use std::boxed::Box;
use std::process::Abort;
use std::test::Fail;

/// The number of an instruction.
pub(crate) fn n(op: Op) -> i32 {
    i32::from(op.number())
}

/// A constant.
pub(crate) fn constant(alloc: Global, v: i32) -> Result<Box<Expr>, Fail> {
    Ok(Box::new(alloc, Expr::Const(v))?)
}

/// What stands at a place.
fn read(alloc: Global, place: Scalar) -> Result<Box<Expr>, Fail> {
    Ok(Box::new(alloc, Expr::Read(place))?)
}

/// The first parameter, an operator, and a constant.
fn with_constant(alloc: Global, o: Operator, v: i32) -> Result<Expr, Fail> {
    Ok(Expr::Binary(o, one(alloc)?, constant(alloc, v)?))
}

/// Two constants with an operator.
fn constants(alloc: Global, o: Operator, x: i32, y: i32) -> Result<Box<Expr>, Fail> {
    let both = Expr::Binary(o, constant(alloc, x)?, constant(alloc, y)?);
    Ok(Box::new(alloc, both)?)
}

/// An operator has a known right operand in its own instruction, where there is such a one.
#[test]
fn known_operands(rt: HostRuntime) -> Result<(), Fail> {
    let alloc = rt.alloc();
    let rows = [
        (Operator::Add, 5, Op::AddC, 5),
        (Operator::Subtract, 5, Op::AddC, -5),
        (Operator::Subtract, i32::MIN, Op::AddC, i32::MIN),
        (Operator::Multiply, 3, Op::SmulC, 3),
        (Operator::ShiftLeft, 2, Op::ShlCPri, 2),
        (Operator::ShiftUnsigned, 31, Op::ShrCPri, 31),
        (Operator::Equal, 7, Op::EqCPri, 7),
    ];
    for (o, v, op, operand) in rows {
        let wanted = [n(Op::LoadSPri), 12, n(op), operand];
        assert!(rt; is_code(alloc, with_constant(alloc, o, v)?, &wanted)?);
    }
    Ok(())
}

/// Else it goes to ALT, and the left one stays in PRI.
#[test]
fn constants_in_alt(rt: HostRuntime) -> Result<(), Fail> {
    let alloc = rt.alloc();
    let rows = [
        (Operator::Divide, Op::Sdiv),
        (Operator::ShiftRight, Op::Sshr),
        (Operator::And, Op::And),
        (Operator::Xor, Op::Xor),
        (Operator::Or, Op::Or),
        (Operator::NotEqual, Op::Neq),
    ];
    for (o, op) in rows {
        let wanted = [n(Op::LoadSPri), 12, n(Op::ConstAlt), 3, n(op)];
        assert!(rt; is_code(alloc, with_constant(alloc, o, 3)?, &wanted)?);
    }
    let rest = [
        n(Op::LoadSPri),
        12,
        n(Op::ConstAlt),
        3,
        n(Op::Sdiv),
        n(Op::MovePri),
    ];
    assert!(rt; is_code(alloc, with_constant(alloc, Operator::Remainder, 3)?, &rest)?);
    Ok(())
}

/// So does a direct place's cell; for all else the left operand waits on the stack.
#[test]
fn other_operands(rt: HostRuntime) -> Result<(), Fail> {
    let alloc = rt.alloc();
    let rows = [
        (Scalar::Slot(0), Op::LoadSAlt, 12),
        (Scalar::Global(0), Op::LoadAlt, 0),
        (Scalar::Through(1), Op::LrefSAlt, 16),
    ];
    for (place, op, operand) in rows {
        let less = Expr::Binary(Operator::Subtract, one(alloc)?, read(alloc, place)?);
        let wanted = [n(Op::LoadSPri), 12, n(op), operand, n(Op::Sub)];
        assert!(rt; is_code(alloc, less, &wanted)?);
    }
    let sum = Box::new(alloc, with_constant(alloc, Operator::Add, 1)?)?;
    let less = Expr::Binary(Operator::Subtract, one(alloc)?, sum);
    let wanted = [
        n(Op::PushS),
        12,
        n(Op::LoadSPri),
        12,
        n(Op::AddC),
        1,
        n(Op::PopAlt),
        n(Op::SubAlt),
    ];
    assert!(rt; is_code(alloc, less, &wanted)?);
    Ok(())
}

/// What folds is one constant, also where a part that isn't needed divides by zero; a division by
/// zero itself is left to the run.
#[test]
fn folded_expressions(rt: HostRuntime) -> Result<(), Fail> {
    let alloc = rt.alloc();
    let product = constants(alloc, Operator::Multiply, 2, 3)?;
    let sum = Expr::Binary(Operator::Add, constant(alloc, 1)?, product);
    assert!(rt; is_code(alloc, sum, &[n(Op::ConstPri), 7])?);
    let quotient = constants(alloc, Operator::Divide, 1, 0)?;
    let both = Expr::And(constant(alloc, 0)?, quotient);
    assert!(rt; is_code(alloc, both, &[n(Op::ZeroPri)])?);
    let open = Expr::Binary(Operator::Divide, constant(alloc, 1)?, constant(alloc, 0)?);
    let wanted = [n(Op::ConstPri), 1, n(Op::ZeroAlt), n(Op::Sdiv)];
    assert!(rt; is_code(alloc, open, &wanted)?);
    let product = constants(alloc, Operator::Multiply, 2, 3)?;
    let more = Expr::Binary(Operator::Add, one(alloc)?, product);
    let wanted = [n(Op::LoadSPri), 12, n(Op::AddC), 6];
    assert!(rt; is_code(alloc, more, &wanted)?);
    Ok(())
}

/// A step whose value isn't used is one instruction, where its place has such a one.
#[test]
fn unused_steps(rt: HostRuntime) -> Result<(), Fail> {
    let alloc = rt.alloc();
    let up = Expr::Step(Scalar::Slot(0), 1, false);
    assert!(rt; is_effect(alloc, up, &[n(Op::IncS), 12])?);
    let down = Expr::Step(Scalar::Global(0), -1, true);
    assert!(rt; is_effect(alloc, down, &[n(Op::Dec), 0])?);
    let through = Expr::Step(Scalar::Through(1), 1, false);
    let wanted = [n(Op::LrefSPri), 16, n(Op::AddC), 1, n(Op::SrefSPri), 16];
    assert!(rt; is_effect(alloc, through, &wanted)?);
    let left = Box::new(alloc, Expr::Step(Scalar::Slot(0), 1, false))?;
    let right = Box::new(alloc, Expr::Step(Scalar::Slot(0), -1, false))?;
    let wanted = [n(Op::IncS), 12, n(Op::DecS), 12];
    assert!(rt; is_effect(alloc, Expr::Seq(left, right), &wanted)?);
    Ok(())
}
