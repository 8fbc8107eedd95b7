ghost use Rattle.std.specs.Prelude.{◌<◌, IfOk, length};
ghost use Rattle.pawn_meaning.specs.View.{program_view};
ghost use Rattle.pawn_usage.specs.IsUsage.{HasStart};

use pawn_base::List;
use pawn_meaning::{Body, Expr, Function, Program, Stmt};
use pawn_usage::{Usage, usage};
use std::alloc::Global;
use std::process::Abort;
use std::test::Fail;

/// A function without parameters and variables that calls others, one behind another.
fn function(alloc: Global, called: &[u32]) -> Result<Function, Fail> {
    let mut calls = List::new(alloc);
    for callee in called {
        calls.push(Stmt::Do(Expr::Call(*callee, List::new(alloc))))?;
    }
    let mut bodies = List::new(alloc);
    bodies.push(Body {
        slots: List::new(alloc),
        stmt: Stmt::Block(calls),
    })?;
    Ok(Function {
        params: List::new(alloc),
        tag: 0,
        dispatch: None,
        bodies,
    })
}

/// The function with a number in a row of so many: it calls the next one and the one behind that.
/// The last one calls what it is given.
fn in_row(alloc: Global, number: u32, count: u32, last: &[u32]) -> Result<Function, Fail> {
    match count.saturating_sub(number) {
        0 | 1 => function(alloc, last),
        2 => function(alloc, &[number.saturating_add(1)]),
        _ => function(alloc, &[number.saturating_add(1), number.saturating_add(2)]),
    }
}

/// A row of so many functions, and one at least.
fn row(alloc: Global, count: u32, last: &[u32]) -> Result<List<Function>, Fail>
    ensures { IfOk result (λ functions. 0 < length functions) }
{
    let before = count.saturating_sub(1);
    let mut functions = List::new(alloc);
    for number in 0..before {
        functions.push(in_row(alloc, number, count, last)?)?;
    }
    functions.push(in_row(alloc, before, count, last)?)?;
    Ok(functions)
}

/// The program of these functions, of which the first one is main.
#[tactic(auto, using(crate::proofs::StartLaws::has_main))]
fn program_of(alloc: Global, functions: List<Function>) -> Program
    requires { 0 < length functions }
    ensures { HasStart (program_view result) }
{
    Program {
        objects: List::new(alloc),
        functions,
        natives: List::new(alloc),
        automata: List::new(alloc),
        tags: List::new(alloc),
        publics: List::new(alloc),
        entry: Some(0),
        dynamic: 0,
    }
}

/// What a row of so many functions needs.
fn measure(alloc: Global, count: u32, last: &[u32]) -> Result<Usage, Fail> {
    let program = program_of(alloc, row(alloc, count, last)?);
    Ok(usage(alloc, &program)?)
}

/// Whether a row of so many functions needs so many cells.
fn needs(alloc: Global, count: u32, wanted: u64) -> Result<bool, Fail> {
    match measure(alloc, count, &[])? {
        Usage::Bound { cells, .. } => Ok(cells == wanted),
        Usage::Recursive { .. } => Ok(false),
    }
}

/// Whether a row of so many functions, whose last one calls another, is answered by a chain whose
/// last function stands earlier in it.
fn comes_back(alloc: Global, count: u32, callee: u32) -> Result<bool, Fail> {
    match measure(alloc, count, &[callee])? {
        Usage::Bound { .. } => Ok(false),
        Usage::Recursive { chain } => Ok(repeats_last(chain.as_slice())),
    }
}

/// Whether the last function of a chain stands earlier in it.
fn repeats_last(chain: &[u32]) -> bool {
    match chain.split_last() {
        Some((last, earlier)) => earlier.contains(last),
        None => false,
    }
}

#[test]
fn rows_need_four_cells_a_call(rt: HostRuntime) -> Result<(), Fail> {
    let alloc = rt.alloc();
    assert!(rt; needs(alloc, 1, 3)?);
    assert!(rt; needs(alloc, 10_000, 39_999)?);
    assert!(rt; needs(alloc, 80_000, 319_999)?);
    assert!(rt; needs(alloc, 100_000, 399_999)?);
    Ok(())
}

#[test]
fn rows_come_back(rt: HostRuntime) -> Result<(), Fail> {
    let alloc = rt.alloc();
    assert!(rt; comes_back(alloc, 1, 0)?);
    assert!(rt; comes_back(alloc, 100_000, 0)?);
    Ok(())
}
