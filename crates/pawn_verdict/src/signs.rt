ghost use Rattle.std.specs.Prelude.{◌≡◌};
ghost use Rattle.names_rules.specs.Signs as spec;
ghost use Rattle.pawn_verdict.specs.SignViews.{between_view, link_view};

use pawn_cells::{Comparison, Logical, Operator};
use pawn_tags::Op;
use pawn_token::Sign;

/// What a sign between two operands stands for (Language Guide, "Operators and expressions").
#[derive(Clone, Copy, Debug, PartialEq, Eq)]
pub enum Between {
    /// An operator, and the one that a program may define.
    Operates(Operator, Option<Op>),
    Decides(Logical),
    /// `,`
    Takes,
    Nothing,
}

/// What a sign between two operands stands for.
pub fn between_of(sign: Sign) -> Between
    ensures { between_view result ≡ spec.between_of sign }
{
    match sign {
        Sign::Star => Between::Operates(Operator::Multiply, Some(Op::Mul)),
        Sign::Slash => Between::Operates(Operator::Divide, Some(Op::Div)),
        Sign::Percent => Between::Operates(Operator::Remainder, Some(Op::Rem)),
        Sign::Plus => Between::Operates(Operator::Add, Some(Op::Add)),
        Sign::Minus => Between::Operates(Operator::Subtract, Some(Op::Sub)),
        Sign::ShiftLeft => Between::Operates(Operator::ShiftLeft, None),
        Sign::ShiftRight => Between::Operates(Operator::ShiftRight, None),
        Sign::ShiftUnsigned => Between::Operates(Operator::ShiftUnsigned, None),
        Sign::Ampersand => Between::Operates(Operator::And, None),
        Sign::Caret => Between::Operates(Operator::Xor, None),
        Sign::Bar => Between::Operates(Operator::Or, None),
        Sign::Equal => Between::Operates(Operator::Equal, Some(Op::Eq)),
        Sign::NotEqual => Between::Operates(Operator::NotEqual, Some(Op::Neq)),
        Sign::LogicalAnd => Between::Decides(Logical::And),
        Sign::LogicalOr => Between::Decides(Logical::Or),
        Sign::Comma => Between::Takes,
        _ => Between::Nothing,
    }
}

/// What a sign in a chain stands for (Language Guide, "Relational operators").
#[derive(Clone, Copy, Debug, PartialEq, Eq)]
pub enum LinkSign {
    /// A comparison, and the operator that a program may define.
    Compares(Comparison, Op),
    Nothing,
}

/// What a sign in a chain stands for.
pub fn link_of(sign: Sign) -> LinkSign
    ensures { link_view result ≡ spec.link_of sign }
{
    match sign {
        Sign::Less => LinkSign::Compares(Comparison::Less, Op::Less),
        Sign::LessEqual => LinkSign::Compares(Comparison::LessEqual, Op::LessEq),
        Sign::Greater => LinkSign::Compares(Comparison::Greater, Op::Greater),
        Sign::GreaterEqual => LinkSign::Compares(Comparison::GreaterEqual, Op::GreaterEq),
        _ => LinkSign::Nothing,
    }
}
