ghost use Rattle.std.specs.Prelude.{◌≡◌, ◌++◌, [], ◌∷◌, pos, IfOk};
ghost use Rattle.amx_ops.specs.Table.{operand_of};
ghost use Rattle.amx_ops.specs.Instructions.{IsProper};
ghost use Rattle.gen_sim.specs.SimpleCode.{alone, prefix_op, operator_code};
ghost use Rattle.gen_sim.specs.ChainCode.{compare_op};
ghost use Rattle.gen_expr.specs.Built.{with_items};

use super::builder::Builder;
use amx_ops::Op;
use pawn_base::Memory;
use pawn_cells::{Comparison, Operator, Prefix};

/// Two instructions without operands.
#[tactic(auto, using(crate::proofs::GrowLaws::then_grow))]
pub fn two(first: Op, second: Op, b: Builder) -> Result<Builder, Memory>
    requires first { IsProper (operand_of first) (pos 0) }
    requires second { IsProper (operand_of second) (pos 0) }
    ensures { IfOk result (λ r. r ≡ with_items (alone first ∷ alone second ∷ []) b) }
{
    let b = b.put(first, 0)?;
    let b = b.put(second, 0)?;
    Ok(b)
}

/// An operator on the value in PRI.
pub fn prefix(o: Prefix, b: Builder) -> Result<Builder, Memory>
    ensures { IfOk result (λ r. r ≡ with_items (alone (prefix_op o) ∷ []) b) }
{
    match o {
        Prefix::Not => b.put(Op::Not, 0),
        Prefix::Invert => b.put(Op::Invert, 0),
        Prefix::Negate => b.put(Op::Neg, 0),
    }
}

/// An operator on what is in ALT and in PRI.
pub fn operator(o: Operator, b: Builder) -> Result<Builder, Memory>
    ensures { IfOk result (λ r. r ≡ with_items (operator_code o) b) }
{
    match o {
        Operator::Multiply => b.put(Op::Smul, 0),
        Operator::Divide => b.put(Op::SdivAlt, 0),
        Operator::Remainder => two(Op::SdivAlt, Op::MovePri, b),
        Operator::Add => b.put(Op::Add, 0),
        Operator::Subtract => b.put(Op::SubAlt, 0),
        Operator::ShiftLeft => two(Op::Xchg, Op::Shl, b),
        Operator::ShiftRight => two(Op::Xchg, Op::Sshr, b),
        Operator::ShiftUnsigned => two(Op::Xchg, Op::Shr, b),
        Operator::And => b.put(Op::And, 0),
        Operator::Xor => b.put(Op::Xor, 0),
        Operator::Or => b.put(Op::Or, 0),
        Operator::Equal => b.put(Op::Eq, 0),
        Operator::NotEqual => b.put(Op::Neq, 0),
    }
}

/// A comparison of what is in ALT with what is in PRI.
pub fn compare(o: Comparison, b: Builder) -> Result<Builder, Memory>
    ensures { IfOk result (λ r. r ≡ with_items (alone (compare_op o) ∷ []) b) }
{
    match o {
        Comparison::Less => b.put(Op::Sgrtr, 0),
        Comparison::LessEqual => b.put(Op::Sgeq, 0),
        Comparison::Greater => b.put(Op::Sless, 0),
        Comparison::GreaterEqual => b.put(Op::Sleq, 0),
    }
}
