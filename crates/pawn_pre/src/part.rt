ghost use Rattle.std.specs.Prelude.{◌≡◌};
ghost use Rattle.pawn_pre.specs.ConditionParts as spec;

use pawn_cells::{Comparison, Logical, Operator, predefined};
use pawn_token::{Sign, TokenKind};

/// An operator between two operands.
#[derive(Clone, Copy, Debug, PartialEq, Eq)]
pub enum Infix {
    Cells(Operator),
    Compare(Comparison),
    Logic(Logical),
}

/// A token of a condition. A minus before an operand is the same one as between two.
#[derive(Clone, Copy, Debug, PartialEq, Eq)]
pub enum Part {
    /// A number, a character or a predefined constant, as a cell.
    Value(i32),
    Two(Infix),
    Not,
    Invert,
    Question,
    Colon,
    Open,
    Close,
}

/// What a token is in a condition, if it may stand there.
pub fn part_of(kind: &TokenKind) -> Option<Part>
    ensures { result ≡ spec.part_of kind.now }
{
    match kind {
        TokenKind::Name(name) => match predefined(name.as_slice()) {
            Some(constant) => Some(Part::Value(constant.value)),
            None => None,
        },
        TokenKind::Number(value) => Some(Part::Value(*value)),
        TokenKind::Sign(sign) => match operator_of(*sign) {
            Some(operator) => Some(Part::Two(Infix::Cells(operator))),
            None => other_of(*sign),
        },
        TokenKind::Key(_) | TokenKind::Text { .. } => None,
    }
}

/// The operator on cells that a sign is.
#[tactic(auto, unfolding(crate::specs::ConditionParts::operator_of))]
fn operator_of(sign: Sign) -> Option<Operator>
    ensures { result ≡ spec.operator_of sign }
{
    match sign {
        Sign::Star => Some(Operator::Multiply),
        Sign::Slash => Some(Operator::Divide),
        Sign::Percent => Some(Operator::Remainder),
        Sign::Plus => Some(Operator::Add),
        Sign::Minus => Some(Operator::Subtract),
        Sign::ShiftLeft => Some(Operator::ShiftLeft),
        Sign::ShiftRight => Some(Operator::ShiftRight),
        Sign::ShiftUnsigned => Some(Operator::ShiftUnsigned),
        Sign::Ampersand => Some(Operator::And),
        Sign::Caret => Some(Operator::Xor),
        Sign::Bar => Some(Operator::Or),
        Sign::Equal => Some(Operator::Equal),
        Sign::NotEqual => Some(Operator::NotEqual),
        _ => None,
    }
}

/// What another sign is in a condition.
#[tactic(auto, unfolding(crate::specs::ConditionParts::other_of))]
fn other_of(sign: Sign) -> Option<Part>
    ensures { result ≡ spec.other_of sign }
{
    match sign {
        Sign::Less => Some(Part::Two(Infix::Compare(Comparison::Less))),
        Sign::LessEqual => Some(Part::Two(Infix::Compare(Comparison::LessEqual))),
        Sign::Greater => Some(Part::Two(Infix::Compare(Comparison::Greater))),
        Sign::GreaterEqual => Some(Part::Two(Infix::Compare(Comparison::GreaterEqual))),
        Sign::LogicalAnd => Some(Part::Two(Infix::Logic(Logical::And))),
        Sign::LogicalOr => Some(Part::Two(Infix::Logic(Logical::Or))),
        Sign::Exclamation => Some(Part::Not),
        Sign::Tilde => Some(Part::Invert),
        Sign::Question => Some(Part::Question),
        Sign::Colon => Some(Part::Colon),
        Sign::OpenParenthesis => Some(Part::Open),
        Sign::CloseParenthesis => Some(Part::Close),
        _ => None,
    }
}
