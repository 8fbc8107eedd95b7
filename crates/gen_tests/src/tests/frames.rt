use gen_expr::frame::Frame;
use gen_expr::{Builder, effect, expression};
use pawn_base::List;
use pawn_meaning::{Expr, Program, Scalar, Shape, Slot};
use std::alloc::Global;
use std::boxed::Box;
use std::test::Fail;

/// A program with nothing in it.
fn nothing(alloc: Global) -> Program {
    Program {
        objects: List::new(alloc),
        functions: List::new(alloc),
        natives: List::new(alloc),
        automata: List::new(alloc),
        tags: List::new(alloc),
        publics: List::new(alloc),
        entry: None,
        dynamic: 0,
    }
}

/// The code of an expression, whose value is used or not. Its body's parameters are a cell, a
/// reference, an array of three cells, and one of two rows of three. The tables have an address and
/// an offset for number 0 alone.
#[tactic(auto, using(crate::proofs::ServesLaws::served))]
fn emitted(alloc: Global, e: Expr, used: bool) -> Result<Builder, Fail> {
    let e = Box::new(alloc, e)?;
    let program = nothing(alloc);
    let line = Shape {
        first: 3,
        second: None,
        third: None,
    };
    let grid = Shape {
        first: 2,
        second: Some(3),
        third: None,
    };
    let slots = [
        Slot::Scalar,
        Slot::Reference,
        Slot::Array(line),
        Slot::Array(grid),
    ];
    let frame = Frame {
        alloc,
        program: &program,
        slots: &slots,
        params: 4,
        made: &[],
        objects: &[0],
        offsets: &[Some(12)],
    };
    if used {
        Ok(expression(&e, &frame, Builder::new(alloc))?)
    } else {
        Ok(effect(&e, &frame, Builder::new(alloc))?)
    }
}

/// How many cells the code of an expression has, and how many calls in it wait.
pub(crate) fn taken(alloc: Global, e: Expr) -> Result<(usize, usize), Fail> {
    let done = emitted(alloc, e, true)?;
    Ok((done.code().len(), done.waits().len()))
}

/// Whether the code of an expression is these cells.
pub(crate) fn is_code(alloc: Global, e: Expr, wanted: &[i32]) -> Result<bool, Fail> {
    let done = emitted(alloc, e, true)?;
    Ok(done.code() == wanted)
}

/// Whether that of one whose value isn't used is these cells.
pub(crate) fn is_effect(alloc: Global, e: Expr, wanted: &[i32]) -> Result<bool, Fail> {
    let done = emitted(alloc, e, false)?;
    Ok(done.code() == wanted)
}

/// An operand of two cells, which doesn't fold: the first parameter.
pub(crate) fn one(alloc: Global) -> Result<Box<Expr>, Fail> {
    Ok(Box::new(alloc, Expr::Read(Scalar::Slot(0)))?)
}
