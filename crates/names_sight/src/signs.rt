ghost use Rattle.std.specs.Prelude.{◌≡◌};
ghost use Rattle.names_rules.specs.Signs as spec;
ghost use Rattle.names_sight.specs.SignViews.{before_view};

use pawn_cells::{Operator, Prefix};
use pawn_tags::Op;
use pawn_token::Sign;

/// What a sign before an operand stands for.
#[derive(Clone, Copy)]
pub enum Before {
    /// An operator, and the one that a program may define.
    Applies(Prefix, Option<Op>),
    Steps,
}

pub fn before_of(sign: Sign) -> Before
    ensures { before_view result ≡ spec.before_of sign }
{
    match sign {
        Sign::Exclamation => Before::Applies(Prefix::Not, Some(Op::Not)),
        Sign::Tilde => Before::Applies(Prefix::Invert, None),
        Sign::Minus => Before::Applies(Prefix::Negate, Some(Op::Neg)),
        _ => Before::Steps,
    }
}

/// Whether an operator tells if its operands are equal.
pub fn is_test(operator: Operator) -> bool
    ensures { result ≡ spec.is_test operator }
{
    matches!(operator, Operator::Equal | Operator::NotEqual)
}
