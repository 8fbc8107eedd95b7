use super::frames::{is_code, is_effect, one};
use super::shapes::{constant, n};
use amx_ops::Op;
use pawn_base::List;
use pawn_meaning::{Array, Expr, Operator, Scalar};
use std::alloc::Global;
use std::boxed::Box;
use std::process::Abort;
use std::test::Fail;

/// An element of an array, whose index is the first parameter.
fn element(alloc: Global, array: Array) -> Result<Scalar, Fail> {
    Ok(Scalar::Element(Box::new(alloc, array)?, one(alloc)?))
}

/// The third parameter is an array of three cells.
fn of_line(alloc: Global) -> Result<Scalar, Fail> {
    element(alloc, Array::ParamArray(2, true))
}

/// A value that is neither known nor at a direct place.
fn sum(alloc: Global) -> Result<Box<Expr>, Fail> {
    let both = Expr::Binary(Operator::Add, one(alloc)?, constant(alloc, 5)?);
    Ok(Box::new(alloc, both)?)
}

/// The index that is the first parameter, its test, and the address of the array of three cells;
/// then what is done with both, and what stands behind that.
fn indexed(alloc: Global, op: Op, tail: &[i32]) -> Result<List<i32>, Fail> {
    let mut wanted = List::new(alloc);
    for cell in [
        n(Op::LoadSPri),
        12,
        n(Op::Bounds),
        2,
        n(Op::LoadSAlt),
        20,
        n(op),
    ] {
        wanted.push(cell)?;
    }
    for cell in tail {
        wanted.push(*cell)?;
    }
    Ok(wanted)
}

/// An index comes first, then its test, and then an instruction sets the array's address.
#[test]
fn read_elements(rt: HostRuntime) -> Result<(), Fail> {
    let alloc = rt.alloc();
    let line = Expr::Read(of_line(alloc)?);
    let wanted = indexed(alloc, Op::Lidx, &[])?;
    assert!(rt; is_code(alloc, line, wanted.as_slice())?);
    let object = Expr::Read(element(alloc, Array::Object(0))?);
    let wanted = [n(Op::LoadSPri), 12, n(Op::ConstAlt), 0, n(Op::Lidx)];
    assert!(rt; is_code(alloc, object, &wanted)?);
    let local = Expr::Read(element(alloc, Array::SlotArray(0))?);
    let wanted = [n(Op::LoadSPri), 12, n(Op::AddrAlt), 12, n(Op::Lidx)];
    assert!(rt; is_code(alloc, local, &wanted)?);
    Ok(())
}

/// A character's byte lies behind the address that is set last.
#[test]
fn read_characters(rt: HostRuntime) -> Result<(), Fail> {
    let alloc = rt.alloc();
    let line = Box::new(alloc, Array::ParamArray(2, true))?;
    let character = Expr::Read(Scalar::Char(line, one(alloc)?));
    let wanted = [
        n(Op::LoadSPri),
        12,
        n(Op::Bounds),
        11,
        n(Op::AlignPri),
        1,
        n(Op::LoadSAlt),
        20,
        n(Op::Add),
        n(Op::LodbI),
        1,
    ];
    assert!(rt; is_code(alloc, character, &wanted)?);
    Ok(())
}

/// A row's address has an index of its own: it waits while the next index is made.
#[test]
fn read_rows(rt: HostRuntime) -> Result<(), Fail> {
    let alloc = rt.alloc();
    let grid = Box::new(alloc, Array::ParamArray(3, true))?;
    let cell = Expr::Read(element(alloc, Array::Row(grid, one(alloc)?))?);
    let wanted = [
        n(Op::LoadSPri),
        12,
        n(Op::Bounds),
        1,
        n(Op::LoadSAlt),
        24,
        n(Op::Idxaddr),
        n(Op::MoveAlt),
        n(Op::LoadI),
        n(Op::Add),
        n(Op::PushPri),
        n(Op::LoadSPri),
        12,
        n(Op::Bounds),
        2,
        n(Op::PopAlt),
        n(Op::Lidx),
    ];
    assert!(rt; is_code(alloc, cell, &wanted)?);
    Ok(())
}

/// An element's address waits for a value that needs the registers.
#[test]
fn assigned_elements(rt: HostRuntime) -> Result<(), Fail> {
    let alloc = rt.alloc();
    let assigned = Expr::Assign(of_line(alloc)?, sum(alloc)?);
    let tail = [
        n(Op::PushPri),
        n(Op::LoadSPri),
        12,
        n(Op::AddC),
        5,
        n(Op::PopAlt),
        n(Op::StorI),
    ];
    let wanted = indexed(alloc, Op::Idxaddr, &tail)?;
    assert!(rt; is_code(alloc, assigned, wanted.as_slice())?);
    Ok(())
}

/// A step of an element whose value isn't used is one instruction behind its address; a character
/// is loaded and stored.
#[test]
fn unused_steps_of_elements(rt: HostRuntime) -> Result<(), Fail> {
    let alloc = rt.alloc();
    for (delta, op) in [(1, Op::IncI), (-1, Op::DecI)] {
        let step = Expr::Step(of_line(alloc)?, delta, false);
        let wanted = indexed(alloc, Op::Idxaddr, &[n(op)])?;
        assert!(rt; is_effect(alloc, step, wanted.as_slice())?);
    }
    let object = Box::new(alloc, Array::Object(0))?;
    let character = Expr::Step(Scalar::Char(object, one(alloc)?), 1, false);
    let wanted = [
        n(Op::LoadSPri),
        12,
        n(Op::AlignPri),
        1,
        n(Op::ConstAlt),
        0,
        n(Op::Add),
        n(Op::MoveAlt),
        n(Op::LodbI),
        1,
        n(Op::AddC),
        1,
        n(Op::StrbI),
        1,
    ];
    assert!(rt; is_effect(alloc, character, &wanted)?);
    Ok(())
}

/// A value that is known or stands at a direct place is stored with no push.
#[test]
fn quiet_values(rt: HostRuntime) -> Result<(), Fail> {
    let alloc = rt.alloc();
    let known = Expr::Assign(of_line(alloc)?, constant(alloc, 5)?);
    let tail = [n(Op::MoveAlt), n(Op::ConstPri), 5, n(Op::StorI)];
    let wanted = indexed(alloc, Op::Idxaddr, &tail)?;
    assert!(rt; is_code(alloc, known, wanted.as_slice())?);
    let placed = Expr::Assign(of_line(alloc)?, one(alloc)?);
    let tail = [n(Op::MoveAlt), n(Op::LoadSPri), 12, n(Op::StorI)];
    let wanted = indexed(alloc, Op::Idxaddr, &tail)?;
    assert!(rt; is_code(alloc, placed, wanted.as_slice())?);
    Ok(())
}

/// An update by a known operand keeps the address in ALT where the operator's instruction leaves
/// that, and else on the stack.
#[test]
fn updated_by_known_ones(rt: HostRuntime) -> Result<(), Fail> {
    let alloc = rt.alloc();
    let sum = Expr::Update(of_line(alloc)?, Operator::Add, constant(alloc, 2)?);
    let tail = [n(Op::MoveAlt), n(Op::LoadI), n(Op::AddC), 2, n(Op::StorI)];
    let wanted = indexed(alloc, Op::Idxaddr, &tail)?;
    assert!(rt; is_code(alloc, sum, wanted.as_slice())?);
    let quotient = Expr::Update(of_line(alloc)?, Operator::Divide, constant(alloc, 2)?);
    let tail = [
        n(Op::PushPri),
        n(Op::LoadI),
        n(Op::ConstAlt),
        2,
        n(Op::Sdiv),
        n(Op::PopAlt),
        n(Op::StorI),
    ];
    let wanted = indexed(alloc, Op::Idxaddr, &tail)?;
    assert!(rt; is_code(alloc, quotient, wanted.as_slice())?);
    Ok(())
}

/// An operand at a direct place goes to ALT behind the read; one that was made goes there from PRI.
/// The order is that of the operator.
#[test]
fn updated_by_others(rt: HostRuntime) -> Result<(), Fail> {
    let alloc = rt.alloc();
    let placed = Expr::Update(of_line(alloc)?, Operator::Subtract, one(alloc)?);
    let tail = [
        n(Op::PushPri),
        n(Op::LoadI),
        n(Op::LoadSAlt),
        12,
        n(Op::Sub),
        n(Op::PopAlt),
        n(Op::StorI),
    ];
    let wanted = indexed(alloc, Op::Idxaddr, &tail)?;
    assert!(rt; is_code(alloc, placed, wanted.as_slice())?);
    let made = Expr::Update(of_line(alloc)?, Operator::Subtract, sum(alloc)?);
    let tail = [
        n(Op::PushPri),
        n(Op::LoadSPri),
        12,
        n(Op::AddC),
        5,
        n(Op::PopAlt),
        n(Op::PushAlt),
        n(Op::Xchg),
        n(Op::LoadI),
        n(Op::Sub),
        n(Op::PopAlt),
        n(Op::StorI),
    ];
    let wanted = indexed(alloc, Op::Idxaddr, &tail)?;
    assert!(rt; is_code(alloc, made, wanted.as_slice())?);
    let direct = Expr::Update(Scalar::Slot(0), Operator::Add, constant(alloc, 2)?);
    let wanted = [n(Op::LoadSPri), 12, n(Op::AddC), 2, n(Op::StorSPri), 12];
    assert!(rt; is_code(alloc, direct, &wanted)?);
    Ok(())
}
