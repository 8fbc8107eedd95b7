ghost use Rattle.std.specs.Prelude.{◌≡◌, ◌*◌, length, IfOk};
ghost use Rattle.gen_stmt.specs.Led.{AreIn};
ghost use Rattle.gen_stmt.specs.Closed.{closed_by, ended_by};

use super::draft::{Draft, Hole};
use super::exits::lead_out;
use amx_ops::Op;
use gen_expr::Builder;
use gen_expr::put::{address, cell_of};
use pawn_base::Memory;

/// Behind a loop's condition, where it ends: the condition's jumps lead back to its body, and its
/// body's to its exits.
pub fn close(told: Draft, start: i32, more: i32, holes: &[Hole]) -> Result<Builder, Memory>
    requires jumps { AreIn (length told.code.code) told.holes }
    requires exits { AreIn (length told.code.code) holes.now }
    ensures { IfOk result (λ r. r ≡ closed_by told start more holes.now) }
{
    let Draft { code, holes: jumps } = told;
    let end = address(&code)?;
    let back = lead_out(jumps.as_slice(), start, 0, code);
    Ok(lead_out(holes, end, more, back))
}

/// Behind the test of a `do`: the jump out of it and the jump back to its top, and its
/// body's jumps lead to its exits.
pub fn close_until(top: i32, more: i32, holes: &[Hole], tested: Builder) -> Result<Builder, Memory>
    requires { AreIn (length tested.code) holes.now }
    ensures { IfOk result (λ r. r ≡ ended_by top more holes.now tested) }
{
    let end = cell_of(4 * tested.code().len() as u64 + 16)?;
    let left = tested.put(Op::Jzer, end)?;
    let back = left.put(Op::Jump, top)?;
    Ok(lead_out(holes, end, more, back))
}
