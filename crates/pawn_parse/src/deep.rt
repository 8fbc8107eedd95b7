ghost use Rattle.std.specs.Prelude.{◌≡◌, ◌≤◌};
ghost use Rattle.tree_rules.specs.Brackets as spec;
ghost use Rattle.pawn_parse.specs.Deep.{IsFirstDeep};

use pawn_lex::Token;
use pawn_token::{Sign, TokenKind};

/// How many brackets may be open.
const MOST_OPEN: usize = 256;

/// The first token at which more than 256 brackets are open, if there is one.
pub(crate) fn too_deep(tokens: &[Token]) -> Option<usize>
    ensures { IsFirstDeep tokens.now result }
{
    let mut count = 0;
    for i in 0..tokens.len() {
        let token = &tokens[i];
        count = open_by(count, &token.kind);
        if count > MOST_OPEN {
            return Some(i);
        }
    }
    None
}

/// How many brackets are open at a token, where so many were before it.
fn open_by(count: usize, kind: &TokenKind) -> usize
    requires { count ≤ 256 }
    ensures { result ≡ spec.open_by count kind.now }
{
    match kind {
        TokenKind::Sign(Sign::OpenParenthesis | Sign::OpenBracket | Sign::OpenBrace) => count + 1,
        TokenKind::Sign(Sign::CloseParenthesis | Sign::CloseBracket | Sign::CloseBrace) => {
            count.saturating_sub(1)
        }
        _ => count,
    }
}
