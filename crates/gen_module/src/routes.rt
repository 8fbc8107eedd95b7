ghost use Rattle.std.specs.Prelude.{◌≡◌, ◌+◌, ◌*◌, ◌^◌, ◌<◌, ◌≤◌, [], ◌∷◌, ℕ, pos, length};
ghost use Rattle.std.specs.Prelude.{replicate, IfOk};
ghost use Rattle.pawn_meaning.specs.View.{function_view, route_view};
ghost use Rattle.gen_sim.specs.SimpleCode.{alone, taking};
ghost use Rattle.gen_sim.specs.StateCode.{automaton_cell};
ghost use Rattle.gen_laws.specs.SwitchCode.{table_item};
ghost use Rattle.gen_laws.specs.RouteCode.{route_items, route_table, leads_to};
ghost use Rattle.gen_expr.specs.Built.{with_items};
ghost use Rattle.gen_stmt.specs.Over.{over};
ghost use Rattle.gen_module.specs.Starts.{Finds};
ghost use Rattle.gen_module.specs.Source.{IsSource, program_of};

use super::bodies::bodies;
use super::source::{Source, state_address};
use super::starts::start_at;
use amx_ops::Op;
use gen_expr::Builder;
use gen_expr::jumps::lead;
use gen_expr::put::{address, cell_of, count_of};
use gen_stmt::table::table;
use pawn_base::Memory;
use pawn_meaning::{Function, Route};

/// A function with a route: its table leads each state to a body, or to HALT 13, behind which the
/// bodies stand.
pub(crate) fn routed(
    route: &Route,
    function: &Function,
    source: &Source<'_>,
    b: Builder,
) -> Result<Builder, Memory>
    requires { IsSource source.now }
    ensures { IfOk result (λ r. r ≡ with_items (route_items (program_of source.now)
        (function_view function.now) (4 * length b.code) (route_view route.now)) b) }
{
    let cases = route.cases.as_slice();
    let count = pair_count(cases.len())?;
    let loaded = begun(route, source, b)?;
    let opened = switched(count, loaded)?;
    let end = count_of(opened.code().len())?;
    let fail = address(&opened)?;
    let halted = opened.put(Op::Halt, 13)?;
    let params = function.params.as_slice();
    let (done, starts) = bodies(function.bodies.as_slice(), params, source, halted)?;
    let other = fallback(route.fallback, fail, starts.as_slice())?;
    let led = lead(end - 2 * count - 1, other, done);
    write_pairs(cases, starts.as_slice(), end - 2 * count, led)
}

/// The beginning of a function with a route: PROC, and the automaton's cell to PRI.
#[tactic(auto, using(gen_expr::proofs::GrowLaws::then_grow))]
fn begun(route: &Route, source: &Source<'_>, b: Builder) -> Result<Builder, Memory>
    requires { IsSource source.now }
    ensures { IfOk result (λ r. r ≡ with_items (alone Op.Proc
        ∷ taking Op.LoadPri (pos (4 * automaton_cell (program_of source.now) route.now.automaton))
        ∷ []) b) }
{
    let state = state_address(route.automaton, source)?;
    let b = b.put(Op::Proc, 0)?;
    let b = b.put(Op::LoadPri, state)?;
    Ok(b)
}

/// SWITCH, and its table for so many pairs, which is 0 until it is written.
#[tactic(auto, using(gen_expr::proofs::GrowLaws::then_grow))]
fn switched(count: u32, b: Builder) -> Result<Builder, Memory>
    requires { count < 2 ^ 28 }
    ensures { IfOk result (λ r. r ≡ with_items (taking Op.Switch (pos (4 * length b.code + 8))
        ∷ table_item count 0 (replicate (2 * count) (pos 0)) ∷ []) b) }
{
    let at = cell_of(4 * b.code().len() as u64 + 8)?;
    let b = b.put(Op::Switch, at)?;
    let b = table(count, b)?;
    Ok(b)
}

/// Where a state leads that no case serves.
fn fallback(number: Option<u32>, fail: i32, starts: &[i32]) -> Result<i32, Memory>
    ensures { (address : ℕ → ℕ) (at : ℕ) → Finds address starts.now → fail ≡ pos at →
        IfOk result (λ x. x ≡ pos (leads_to address at number)) }
{
    match number {
        Some(part) => start_at(part, starts),
        None => Ok(fail),
    }
}

/// Writes the pairs of a route from a cell on: a state's cell is one more than its number, and the
/// body that serves it begins at the address.
fn write_pairs(cases: &[(u32, u32)], starts: &[i32], at: u32, b: Builder) -> Result<Builder, Memory>
    requires within { at + 2 * length cases.now ≤ length b.code }
    requires small { at + 2 * length cases.now < 2 ^ 32 }
    ensures { (address : ℕ → ℕ) → Finds address starts.now →
        IfOk result (λ r. r ≡ over at (route_table address cases.now) b) }
{
    let mut led = b;
    let mut cell = at;
    for case in cases {
        let (state, part) = *case;
        let value = cell_of(u64::from(state) + 1)?;
        let address = start_at(part, starts)?;
        led = lead(cell, value, led);
        led = lead(cell + 1, address, led);
        cell += 2;
    }
    Ok(led)
}

/// How many pairs a table has. No memory holds one of too many.
fn pair_count(n: usize) -> Result<u32, Memory>
    ensures { IfOk result (λ count. (count ≡ n) × (count < 2 ^ 28)) }
{
    if n < 268_435_456 {
        Ok(n as u32)
    } else {
        Err(Memory)
    }
}
