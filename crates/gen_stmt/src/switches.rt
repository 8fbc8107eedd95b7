ghost use Rattle.std.specs.Prelude.{◌≡◌, ◌+◌, ◌*◌, ◌≤◌, ◌∷◌, pos, length, IfOk};
ghost use Rattle.pawn_meaning.specs.View.{cases_view};
ghost use Rattle.gen_laws.specs.SwitchCode.{cases_values};
ghost use Rattle.gen_expr.specs.Built.{with_items};
ghost use Rattle.gen_stmt.specs.Over.{over, cases_pairs};
ghost use Rattle.gen_stmt.specs.Led.{all_led, AreIn};
ghost use Rattle.gen_stmt.specs.Tabled.{unled_table};

use super::count::cases_count;
use super::draft::{Draft, Hole};
use super::exits::lead_out;
use super::table::table;
use super::write::write_cases;
use amx_ops::Op;
use gen_expr::Builder;
use gen_expr::put::{address, cell_of};
use pawn_base::Memory;
use pawn_meaning::Case;

/// The same in a draft.
pub fn begin_switch(cases: &[Case], b: Draft) -> Result<Draft, Memory>
    ensures { IfOk result (λ r. r ≡ record {
      code = with_items (unled_table (4 * length b.code.code) (cases_view cases.now)) b.code;
      holes = b.holes;
    }) }
{
    let Draft { code, holes } = b;
    let code = tabled(cases, code)?;
    Ok(Draft { code, holes })
}

/// The table from a cell on is written: the address of what stands behind `default`, and the pairs
/// of the cases, of which each begins at its address. The jumps of the cases lead to the end.
#[tactic(auto, using(crate::proofs::OverLaws::over_cells))]
pub fn close_switch(
    cases: &[Case],
    at: u32,
    default: i32,
    begins: &[i32],
    ends: &[Hole],
    b: Draft,
) -> Result<Draft, Memory>
    requires within { at + 1 + 2 * cases_values (cases_view cases.now) ≤ length b.code.code }
    requires each { length begins.now ≡ length cases.now }
    requires ends { AreIn (length b.code.code) ends.now }
    ensures { IfOk result (λ r. r ≡ record {
      code = all_led (pos (4 * length b.code.code)) (pos 0) ends.now
          (over at (default ∷ cases_pairs (cases_view cases.now) begins.now) b.code);
      holes = b.holes;
    }) }
{
    let Draft { code, holes } = b;
    let mut code = code;
    let end = address(&code)?;
    code.fill(at, default);
    let written = write_cases(cases, begins, at + 1, code);
    let code = lead_out(ends, end, 0, written);
    Ok(Draft { code, holes })
}

/// Behind a value: SWITCH and a case table, whose cells are 0 until they are written.
#[tactic(auto, using(gen_expr::proofs::GrowLaws::then_grow))]
fn tabled(cases: &[Case], b: Builder) -> Result<Builder, Memory>
    ensures { IfOk result (λ r. r ≡ with_items
        (unled_table (4 * length b.code) (cases_view cases.now)) b) }
{
    let count = cases_count(cases)?;
    let at = cell_of(4 * b.code().len() as u64 + 8)?;
    let b = b.put(Op::Switch, at)?;
    let b = table(count, b)?;
    Ok(b)
}
