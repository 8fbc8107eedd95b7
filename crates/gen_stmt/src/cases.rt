ghost use Rattle.std.specs.Prelude.{◌≡◌, ◌+◌, ◌*◌, ◌≤◌, length, IfOk};
ghost use Rattle.pawn_meaning.specs.View.{cases_view};
ghost use Rattle.gen_laws.specs.SwitchCode.{cases_values};
ghost use Rattle.gen_stmt.specs.Led.{AreIn};
ghost use Rattle.gen_stmt.specs.declared.draft.Exit.TheVariants as exit;
ghost use Rattle.gen_stmt.specs.Cased.{closed_cases};

use super::draft::{Draft, Exit, Hole};
use super::switches::close_switch;
use gen_expr::Builder;
use gen_expr::jumps::last_cell;
use pawn_base::{List, Memory};
use pawn_meaning::Case;

/// What closes a switch whose cases were appended: the cell of its table's default address, that
/// address, where each case begins, and the jumps of the cases to the end.
#[derive(Drop)]
pub struct Cased {
    pub at: u32,
    pub default: i32,
    pub begins: List<i32>,
    pub ends: List<Hole>,
}

impl Cased {
    /// The table is written, and the jumps lead to the end.
    pub fn close(&self, cases: &[Case], b: Draft) -> Result<Draft, Memory>
        requires within { self.now.at + 1 + 2 * cases_values (cases_view cases.now) ≤
            length b.code.code }
        requires each { length self.now.begins ≡ length cases.now }
        requires ends { AreIn (length b.code.code) self.now.ends }
        ensures { IfOk result (λ r. r ≡ closed_cases self.now (cases_view cases.now) b) }
    {
        let begins = self.begins.as_slice();
        close_switch(
            cases,
            self.at,
            self.default,
            begins,
            self.ends.as_slice(),
            b,
        )
    }
}

/// The operand of a jump that was appended last, out of a switch.
pub fn jump_at(b: &Builder) -> Result<Hole, Memory>
    ensures at { IfOk result (λ hole. hole.at + 1 ≡ length b.now.code) }
    ensures exit { IfOk result (λ hole. hole.exit ≡ exit.Break) }
{
    let at = last_cell(b)?;
    Ok(Hole {
        at,
        exit: Exit::Break,
    })
}

/// The cell of a case table's default address, where SWITCH comes next and the table behind it.
pub fn table_at(b: &Builder) -> Result<u32, Memory>
    ensures { IfOk result (λ at. at ≡ length b.now.code + 4) }
{
    let cells = b.code().len();
    if cells < 1_073_741_824 {
        Ok(cells as u32 + 4)
    } else {
        Err(Memory)
    }
}
