ghost use Rattle.std.specs.Prelude.{◌≡◌, ◌*◌, [], ◌∷◌, pos, length, IfOk};
ghost use Rattle.pawn_meaning.specs.View.{perhaps_view, program_view};
ghost use Rattle.gen_sim.specs.Pieces.{total, objects_from};
ghost use Rattle.gen_sim.specs.Items.{CallOf};
ghost use Rattle.gen_sim.specs.SimpleCode.{taking};
ghost use Rattle.gen_sim.specs.JumpCode.{choice_code};
ghost use Rattle.gen_sim.specs.StateCode.{enter_code, switched_code, state_code};
ghost use Rattle.gen_laws.specs.StmtCode.{condition_items};
ghost use Rattle.gen_expr.specs.Built.{with_items};
ghost use Rattle.gen_stmt.specs.Grown.{Grown};
ghost use Rattle.gen_stmt.specs.Keeps.{scope_in};
ghost use Rattle.gen_stmt.specs.Standing.{Stands};

use super::draft::Draft;
use super::entries::entry;
use super::locals::Locals;
use super::nodes::condition;
use super::place::Place;
use amx_ops::Op;
use gen_expr::Builder;
use gen_expr::jumps::{land, last_cell, turn};
use gen_expr::put::{call, cell_of};
use pawn_base::Memory;
use pawn_meaning::Expr;

/// An automaton goes to a state where a condition holds.
#[inline(never)]
pub fn state(
    a: u32,
    state: u32,
    c: &Option<Expr>,
    place: &Place<'_>,
    locals: &Locals,
    b: Draft,
) -> Result<Draft, Memory>
    requires { Stands place.now locals.now }
    ensures { IfOk result (λ r. let scope = scope_in place.now locals.now.made.items in
        Grown b r (λ exits. state_code scope.program (4 * length b.code.code) a state
        (condition_items scope (4 * length b.code.code) (perhaps_view c.now)))) }
{
    let Draft { code, holes } = b;
    let tested = condition(c, place, locals, code)?;
    let code = chosen(a, state, place, tested)?;
    Ok(Draft { code, holes })
}

/// The entry function of a state is called, where there is one.
fn entered(f: Option<u32>, b: Builder) -> Result<Builder, Memory>
    ensures { IfOk result (λ r. r ≡ with_items (enter_code f) b) }
{
    match f {
        None => Ok(b),
        Some(f) => called(f, b),
    }
}

/// A function without arguments is called.
#[tactic(auto, using(gen_expr::proofs::GrowLaws::then_grow))]
fn called(f: u32, b: Builder) -> Result<Builder, Memory>
    ensures { IfOk result (λ r. r ≡ with_items (taking Op.PushC (pos 0) ∷ CallOf f ∷ []) b) }
{
    let b = b.put(Op::PushC, 0)?;
    let b = call(f, b)?;
    Ok(b)
}

/// An automaton goes to a state.
fn switched(a: u32, state: u32, place: &Place<'_>, b: Builder) -> Result<Builder, Memory>
    requires { place.now.automata ≡
        total (objects_from 0 (program_view place.now.program.now).objects) }
    ensures { IfOk result (λ r. r ≡
        with_items (switched_code (program_view place.now.program.now) a state) b) }
{
    let value = cell_of(u64::from(state) + 1)?;
    let at = cell_of(4 * (u64::from(place.automata) + u64::from(a)))?;
    let b = b.put(Op::ConstPri, value)?;
    let b = b.put(Op::StorPri, at)?;
    let b = entered(entry(a, state, place.program), b)?;
    Ok(b)
}

/// An automaton goes to a state where the value in PRI isn't 0.
fn chosen(a: u32, state: u32, place: &Place<'_>, b: Builder) -> Result<Builder, Memory>
    requires { place.now.automata ≡
        total (objects_from 0 (program_view place.now.program.now).objects) }
    ensures { IfOk result (λ r. r ≡ with_items (choice_code (4 * length b.code)
        (switched_code (program_view place.now.program.now) a state) []) b) }
{
    let tested = b.put(Op::Jzer, 0)?;
    let other = last_cell(&tested)?;
    let first = switched(a, state, place, tested)?;
    let opened = turn(other, first)?;
    let end = last_cell(&opened)?;
    let done = land(end, opened)?;
    Ok(done)
}
