ghost use Rattle.std.specs.Prelude.{OnOk, map};
ghost use Rattle.pawn_meaning.specs.View.{stmt_view, stmts_view, cases_view, else_view, body_view};
ghost use Rattle.pawn_meaning.specs.View.{program_view};
ghost use Rattle.pawn_usage.specs.Adds.{Adds};
ghost use Rattle.pawn_usage.specs.Called as spec;

use super::expressions::{add_perhaps, in_expr, in_perhaps};
use pawn_base::{List, Memory};
use pawn_meaning::{Body, Case, Program, Stmt};
use std::boxed::Box;

/// Adds the entry function of an automaton, which a switch of its state calls.
#[tactic(auto, using(crate::proofs::AddLaws::adds))]
fn in_switch(program: &Program, automaton: u32, out: &mut List<u32>) -> Result<(), Memory>
    ensures { OnOk result (Adds out.old out.new
        (spec.called_by_switch (program_view program.now) automaton)) }
{
    match program.automata.as_slice().get(automaton as usize) {
        None => Ok(()),
        Some(automaton) => add_perhaps(automaton.enter, out),
    }
}

/// Adds the functions that a statement calls.
#[cycle(statement)]
#[tactic(auto, using(crate::proofs::AddLaws::adds))]
pub fn in_stmt(x: &Stmt, program: &Program, out: &mut List<u32>) -> Result<(), Memory>
    ensures { OnOk result (Adds out.old out.new
        (spec.called_by (program_view program.now) (stmt_view x.now))) }
{
    match x {
        Stmt::LocalArray(..) | Stmt::Break | Stmt::Continue | Stmt::Empty => Ok(()),
        Stmt::Block(stmts) => in_stmts(stmts, program, out),
        Stmt::Local(_, x) | Stmt::Do(x) | Stmt::Return(x) | Stmt::Assert(x) => in_expr(x, out),
        Stmt::Exit(x, _) | Stmt::Sleep(x, _) => in_expr(x, out),
        Stmt::If(x, body, other) => {
            in_expr(x, out)?;
            in_stmt(body, program, out)?;
            in_other(other, program, out)
        }
        Stmt::While(x, body) => {
            in_expr(x, out)?;
            in_stmt(body, program, out)
        }
        Stmt::DoWhile(body, x) => {
            in_stmt(body, program, out)?;
            in_expr(x, out)
        }
        Stmt::For(first, x, step, body) => {
            in_stmts(first, program, out)?;
            in_perhaps(x, out)?;
            in_perhaps(step, out)?;
            in_stmt(body, program, out)
        }
        Stmt::Switch(x, cases, other) => {
            in_expr(x, out)?;
            in_cases(cases, program, out)?;
            in_other(other, program, out)
        }
        Stmt::State(automaton, _, x) => {
            in_perhaps(x, out)?;
            in_switch(program, *automaton, out)
        }
    }
}

#[cycle(statement)]
#[tactic(auto, using(crate::proofs::AddLaws::adds))]
fn in_stmts(list: &List<Stmt>, program: &Program, out: &mut List<u32>) -> Result<(), Memory>
    ensures { OnOk result (Adds out.old out.new
        (spec.called_by_all (program_view program.now) (stmts_view list.now))) }
{
    let items = list.as_slice();
    for i in 0..items.len() {
        in_stmt(&items[i], program, out)?;
    }
    Ok(())
}

#[cycle(statement)]
fn in_case(x: &Case, program: &Program, out: &mut List<u32>) -> Result<(), Memory>
    ensures { OnOk result (Adds out.old out.new
        (spec.called_by (program_view program.now) (stmt_view x.now.stmt))) }
{
    in_stmt(&x.stmt, program, out)
}

#[cycle(statement)]
#[tactic(auto, using(crate::proofs::AddLaws::adds))]
fn in_cases(list: &List<Case>, program: &Program, out: &mut List<u32>) -> Result<(), Memory>
    ensures { OnOk result (Adds out.old out.new
        (spec.called_by_cases (program_view program.now) (cases_view list.now))) }
{
    let items = list.as_slice();
    for i in 0..items.len() {
        in_case(&items[i], program, out)?;
    }
    Ok(())
}

#[cycle(statement)]
#[tactic(auto, using(crate::proofs::AddLaws::adds))]
fn in_other(other: &Option<Box<Stmt>>, program: &Program, out: &mut List<u32>) -> Result<(), Memory>
    ensures { OnOk result (Adds out.old out.new
        (spec.called_by_else (program_view program.now) (else_view other.now))) }
{
    match other {
        None => Ok(()),
        Some(s) => in_stmt(s, program, out),
    }
}

fn in_body(x: &Body, program: &Program, out: &mut List<u32>) -> Result<(), Memory>
    ensures { OnOk result (Adds out.old out.new
        (spec.called_by (program_view program.now) (stmt_view x.now.stmt))) }
{
    in_stmt(&x.stmt, program, out)
}

/// Adds the functions that all bodies of a function call.
pub fn in_bodies(bodies: &List<Body>, program: &Program, out: &mut List<u32>) -> Result<(), Memory>
    ensures { OnOk result (Adds out.old out.new
        (spec.called_by_bodies (program_view program.now) (map body_view bodies.now))) }
{
    let items = bodies.as_slice();
    for i in 0..items.len() {
        in_body(&items[i], program, out)?;
    }
    Ok(())
}
