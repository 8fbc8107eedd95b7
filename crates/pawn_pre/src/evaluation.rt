ghost use Rattle.pawn_pre.specs.Condition.{IsValue};
ghost use Rattle.pawn_pre.specs.ConditionMachine as machine;
ghost use Rattle.pawn_pre.specs.Evaluation as spec;
ghost use Rattle.pawn_pre.specs.Evaluation.{Value};
ghost use Rattle.pawn_pre.specs.Expansion.{Tells};

use super::refusal::{BAD_CONDITION, LONG_LINE, Refusal};
use super::substitution::is_long;
use super::table::Table;
use super::value::computed_value;
use std::alloc::Global;

impl Table {
    /// The value of an expression once its names are substituted (Language Guide, "Directives").
    ///
    /// # Errors
    ///
    /// The faults of a line, and 11 where no expression with a value stands. `Memory` for want of
    /// memory.
    pub fn number(&self, alloc: Global, control: u8, bytes: &[u8]) -> Result<i32, Refusal>
        ensures { (value : Value) → IsValue value →
            Tells (spec.number value self.now control bytes.now) result }
    {
        self.evaluated(alloc, control, bytes)
    }

    /// The same where each `defined NAME` is replaced before, by `1` or `0` (Language Guide,
    /// "Directives", on `#if`).
    ///
    /// # Errors
    ///
    /// The same, and fault 9 where there are more than 4,095 bytes before that.
    pub fn condition(&self, alloc: Global, control: u8, bytes: &[u8]) -> Result<i32, Refusal>
        ensures { (value : Value) → IsValue value →
            Tells (spec.condition value self.now control bytes.now) result }
    {
        if is_long(bytes.len(), 0) {
            return Err(Refusal::Fault(LONG_LINE));
        }
        let text = self.answered(alloc, control, bytes)?;
        self.number(alloc, control, text.as_slice())
    }

    /// The value of an expression once its names are substituted.
    fn evaluated(&self, alloc: Global, control: u8, bytes: &[u8]) -> Result<i32, Refusal>
        ensures { Tells (spec.number machine.value_of self.now control bytes.now) result }
    {
        let line = self.expanded(alloc, control, bytes)?;
        match computed_value(alloc, control, line.as_slice())? {
            Some(value) => Ok(value),
            None => Err(Refusal::Fault(BAD_CONDITION)),
        }
    }
}
