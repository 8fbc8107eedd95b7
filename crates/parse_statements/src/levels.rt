ghost use Rattle.std.specs.Prelude.{◌≡◌, ◌<◌, length, IsTrue};
ghost use Rattle.tree_rules.specs.Tokens as tok;
ghost use Rattle.tree_rules.specs.Levels as levels;

use super::token_parser::Parser;
use pawn_token::Sign;
use tree_rules::{Joint, Word};

/// How a sign continues an expression.
pub(crate) fn joint_of(sign: Sign) -> Joint
    ensures { result ≡ levels.joint_of sign }
{
    match sign {
        Sign::Star | Sign::Slash | Sign::Percent => Joint::Left(3),
        Sign::Plus | Sign::Minus => Joint::Left(4),
        Sign::ShiftLeft | Sign::ShiftRight | Sign::ShiftUnsigned => Joint::Left(5),
        Sign::Ampersand => Joint::Left(6),
        Sign::Caret => Joint::Left(7),
        Sign::Bar => Joint::Left(8),
        Sign::Less | Sign::LessEqual | Sign::Greater | Sign::GreaterEqual => Joint::Compare,
        Sign::Equal | Sign::NotEqual => Joint::Left(10),
        Sign::LogicalAnd => Joint::Left(11),
        Sign::LogicalOr => Joint::Left(12),
        Sign::Question => Joint::Question,
        Sign::Assign
        | Sign::AddAssign
        | Sign::SubtractAssign
        | Sign::MultiplyAssign
        | Sign::DivideAssign
        | Sign::RemainderAssign
        | Sign::ShiftLeftAssign
        | Sign::ShiftRightAssign
        | Sign::ShiftUnsignedAssign
        | Sign::AndAssign
        | Sign::OrAssign
        | Sign::XorAssign => Joint::Assign,
        Sign::Comma => Joint::Left(15),
        Sign::Increment | Sign::Decrement => Joint::Step,
        Sign::OpenBracket => Joint::Bracket,
        Sign::OpenBrace => Joint::Brace,
        Sign::OpenParenthesis => Joint::Parenthesis,
        Sign::Colon => Joint::Colon,
        _ => Joint::Nothing,
    }
}

/// Whether a sign may stand before an operand.
pub(crate) fn is_prefix(sign: Sign) -> bool
    ensures { result ≡ levels.is_prefix sign }
{
    matches!(
        sign,
        Sign::Exclamation | Sign::Tilde | Sign::Minus | Sign::Increment | Sign::Decrement
    )
}

/// At which level a sign goes on with the expression before it. Before one of level 0 no expression
/// ends, and one of level 16 doesn't go on with it.
fn level_of(tags: bool, first: bool, joint: Joint) -> usize
    ensures { result ≡ levels.level_of tags first joint }
{
    match joint {
        Joint::Left(level) => level,
        Joint::Compare => 9,
        Joint::Question => 13,
        Joint::Assign => 14,
        Joint::Bracket => if first { 0 } else { 1 },
        Joint::Step | Joint::Brace => if first { 16 } else { 1 },
        Joint::Parenthesis => if first { 16 } else { 0 },
        Joint::Colon => if tags { 0 } else { 16 },
        Joint::Nothing => 16,
    }
}

impl<'a> Parser<'a> {
    /// How the token continues the expression before it.
    fn joint_at(&self, at: usize) -> Joint
        ensures { result ≡ levels.joint_at (tok.word self.now.tokens.now at) }
    {
        match self.word(at) {
            Word::Sign(sign) => joint_of(sign),
            _ => Joint::Nothing,
        }
    }

    /// At which level the token goes on with the expression before it.
    #[tactic(auto, unfolding(tree_rules::specs::Levels::binds))]
    pub(crate) fn binds(&self, tags: bool, at: usize) -> usize
        ensures { result ≡ levels.binds self.now.tokens.now tags at }
    {
        level_of(tags, self.is_first(at), self.joint_at(at))
    }

    /// Whether a comparison stands there.
    #[tactic(auto, unfolding(tree_rules::specs::Levels::compares))]
    pub(crate) fn compares(&self, at: usize) -> bool
        ensures { result ≡ levels.compares self.now.tokens.now at }
    {
        matches!(self.joint_at(at), Joint::Compare)
    }

    /// Whether the arguments of a call begin there.
    #[tactic(auto, unfolding(tree_rules::specs::Levels::calls))]
    pub(crate) fn calls(&self, at: usize) -> bool
        ensures value { result ≡ levels.calls self.now.tokens.now at }
        ensures inside { IsTrue result → at < length self.now.tokens.now }
    {
        self.sees(Sign::OpenParenthesis, at) && !self.is_first(at)
    }
}
