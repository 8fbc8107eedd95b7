ghost use Rattle.std.specs.Prelude.{◌≡◌, IfOk};
ghost use Rattle.types_rules.specs.Typed as spec;
ghost use Rattle.pawn_verdict.specs.Answers.{Answers};
ghost use Rattle.check_nodes.specs.CodeView.{code_view};
ghost use Rattle.check_nodes.specs.TypedView.{form_view};

use super::made::Made;
use super::typed::Typed;
use super::wanted_cell::cell;
use pawn_meaning::Expr;
use pawn_tree::At;
use pawn_verdict::CheckFault;
use std::alloc::Global;

/// An operand whose cell is taken: its first token, the cell, its tag, its value where it is a
/// constant expression, and what was made and found in it.
#[derive(Drop)]
pub struct Operand {
    pub at: At,
    pub code: Box<Expr>,
    pub tag: u32,
    pub value: Option<i32>,
    pub made: Made,
}

impl Typed {
    /// As an operand of the node at a token, which wants one cell of it.
    ///
    /// # Errors
    ///
    /// 54 for an array.
    pub fn as_operand(self, alloc: Global, at: At) -> Result<Operand, CheckFault>
        ensures code { Answers (λ it. code_view it.code)
            (spec.cell_in at (form_view self.form)) result }
        ensures others { IfOk result (λ it. (it.at ≡ self.at) × (it.tag ≡ self.tag) ×
            (it.value ≡ self.value) × (it.made ≡ self.made)) }
    {
        let code = cell(alloc, at, self.form)?;
        Ok(Operand {
            at: self.at,
            code,
            tag: self.tag,
            value: self.value,
            made: self.made,
        })
    }
}
