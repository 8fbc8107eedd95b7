ghost use Rattle.std.specs.Prelude.{◌≡◌, ◌+◌, ◌*◌, ◌<◌, [], ◌∷◌, pos, length, IfOk};
ghost use Rattle.amx_ops.specs.Table.{operand_of};
ghost use Rattle.amx_ops.specs.Instructions.{IsProper};
ghost use Rattle.gen_sim.specs.SimpleCode.{taking};
ghost use Rattle.gen_sim.specs.JumpCode.{jump_to};
ghost use Rattle.gen_sim.specs.TestCode.{test_op};
ghost use Rattle.gen_expr.specs.TestView.{test_view};
ghost use Rattle.gen_expr.specs.Built.{with_items};
ghost use Rattle.gen_expr.specs.Filled.{filled};
ghost use Rattle.gen_stmt.specs.Led.{exit_at, all_led, AreIn};
ghost use Rattle.gen_stmt.specs.Grown.{Grown};

use super::exits::lead_out;
use amx_ops::Op;
use gen_expr::jumps::{land, last_cell};
use gen_expr::put::cell_of;
use gen_expr::{Builder, Test};
use pawn_base::{List, Memory};
use std::alloc::Global;

/// How a statement leaves the loop around it.
#[derive(Clone, Copy, Debug)]
pub enum Exit {
    Break,
    Continue,
}

/// The cell that is the operand of a jump to an exit.
#[derive(Clone, Copy, Debug)]
pub struct Hole {
    pub at: u32,
    pub exit: Exit,
}

/// Code as it grows, and its jumps to the exits of the loop around, which aren't known yet. It is
/// passed on by value, and is dropped where memory is wanting.
#[derive(Debug, Drop)]
pub struct Draft {
    pub code: Builder,
    pub holes: List<Hole>,
}

impl Draft {
    /// Code without such a jump.
    pub fn new(alloc: Global, code: Builder) -> Draft
        ensures { result ≡ record { code = code; holes = [] } }
    {
        Draft {
            code,
            holes: List::new(alloc),
        }
    }

    /// Appends an instruction with its operand, which is 0 where it has none.
    pub fn put(self, op: Op, operand: i32) -> Result<Draft, Memory>
        requires { IsProper (operand_of op) operand }
        ensures { IfOk result (λ r. r ≡ record {
          code = with_items (taking op operand ∷ []) self.code;
          holes = self.holes;
        }) }
    {
        let Draft { code, holes } = self;
        let code = code.put(op, operand)?;
        Ok(Draft { code, holes })
    }

    /// Appends a jump to an exit, which is taken where a test holds.
    pub fn jump_out_where(self, test: Test, exit: Exit) -> Result<Draft, Memory>
        ensures { IfOk result (λ r.
            Grown self r (λ exits. jump_to (test_op (test_view test)) (exit_at exits exit) ∷ [])) }
    {
        let Draft { code, holes } = self;
        let mut holes = holes;
        let code = test.jump(0, code)?;
        let at = last_cell(&code)?;
        holes.push(Hole { at, exit })?;
        Ok(Draft { code, holes })
    }

    /// Appends a jump to an exit.
    pub fn jump_out(self, exit: Exit) -> Result<Draft, Memory>
        ensures { IfOk result (λ r.
            Grown self r (λ exits. jump_to Op.Jump (exit_at exits exit) ∷ [])) }
    {
        let Draft { code, holes } = self;
        let mut holes = holes;
        let code = code.put(Op::Jump, 0)?;
        let at = last_cell(&code)?;
        holes.push(Hole { at, exit })?;
        Ok(Draft { code, holes })
    }

    /// These jumps lead so many bytes behind what was appended.
    pub fn land_all(self, ends: &[Hole], bytes: u32) -> Result<Draft, Memory>
        requires { AreIn (length self.code.code) ends.now }
        ensures { IfOk result (λ r. r ≡ record {
          code = all_led (pos (4 * length self.code.code + bytes)) (pos 0) ends.now self.code;
          holes = self.holes;
        }) }
    {
        let Draft { code, holes } = self;
        let to = cell_of(4 * code.code().len() as u64 + u64::from(bytes))?;
        let code = lead_out(ends, to, 0, code);
        Ok(Draft { code, holes })
    }

    /// The jump whose operand is that cell leads to what is appended next.
    pub fn land(self, hole: u32) -> Result<Draft, Memory>
        requires { hole < length self.code.code }
        ensures { IfOk result (λ r. r ≡ record {
          code = filled hole (pos (4 * length self.code.code)) self.code;
          holes = self.holes;
        }) }
    {
        let Draft { code, holes } = self;
        let code = land(hole, code)?;
        Ok(Draft { code, holes })
    }
}
