ghost use Rattle.std.specs.Prelude.{◌≡◌, ℕ, ℤ, List, Option, IfOk, MatchOption};
ghost use Rattle.pawn_pre.specs.Condition.{HasValue, IsValue};
ghost use Rattle.pawn_pre.specs.ConditionMachine as machine;

use super::condition_parts::parts;
use super::evaluate::evaluate;
use pawn_base::Memory;
use std::alloc::Global;

/// The value of the expression that the parts of a text spell.
#[tactic(auto, unfolding(crate::specs::ConditionMachine::value_of))]
pub fn computed_value(alloc: Global, control: u8, text: &[u8]) -> Result<Option<i32>, Memory>
    ensures { IfOk result (λ found. found ≡ machine.value_of control text.now) }
{
    match parts(alloc, control, text)? {
        Some(list) => evaluate(alloc, list.as_slice()),
        None => Ok(None),
    }
}

/// The value of a condition under a control character, or nothing where the text spells no
/// expression or a divisor in it is zero (Language Guide, "Directives", on `#if`). All operands are
/// evaluated.
///
/// # Errors
///
/// `Memory` for want of memory.
pub fn value_of(alloc: Global, control: u8, text: &[u8]) -> Result<Option<i32>, Memory>
    // That of the expression that the text spells.
    ensures has { IfOk result (λ found. MatchOption found
        ((v : ℤ) → ¬ (HasValue control text.now v)) (λ v. HasValue control text.now v)) }

    // A text has one value at most.
    ensures only { (v w : ℤ) → HasValue control text.now v → HasValue control text.now w → v ≡ w }

    // It is the one of each function that gives each text its value.
    ensures told { (value : ℕ → List ℕ → Option ℤ) → IsValue value →
        IfOk result (λ found. found ≡ value control text.now) }
{
    computed_value(alloc, control, text)
}
