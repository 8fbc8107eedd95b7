ghost use Rattle.std.specs.Prelude.{◌≡◌, ◌≤◌, ◌<◌, ◌^◌, length, IsTrue};
ghost use Rattle.tree_rules.specs.Tokens as tok;
ghost use Rattle.parse_statements.specs.Answers.{Expects, IsInside, IsStuck};

use super::read_fault::ReadFault;
use pawn_lex::Token;
use pawn_token::{Key, Sign, TokenKind};
use std::alloc::Global;
use tree_rules::Word;

/// The tokens that are read. Each call looks at one by its number, counted from 0; behind the last
/// one nothing stands.
#[derive(Clone, Copy)]
pub struct Parser<'a> {
    pub alloc: Global,
    pub tokens: &'a [Token],
    ghost short: { length tokens.now < 2 ^ 63 },
}

/// What a token of this kind is to the grammar.
fn word_of(kind: &TokenKind) -> Word
    ensures { result ≡ tok.word_of kind.now }
{
    match kind {
        TokenKind::Name(bytes) => {
            if is_blank(bytes.as_slice()) {
                Word::Blank
            } else {
                Word::Name
            }
        }
        TokenKind::Key(key) => Word::Key(*key),
        TokenKind::Number(_) => Word::Number,
        TokenKind::Text { .. } => Word::Text,
        TokenKind::Sign(sign) => Word::Sign(*sign),
    }
}

/// Whether a name is `_`.
fn is_blank(bytes: &[u8]) -> bool
    ensures { result ≡ tok.is_blank bytes.now }
{
    match bytes {
        [byte] => *byte == b'_',
        _ => false,
    }
}

impl<'a> Parser<'a> {
    pub fn new(alloc: Global, tokens: &'a [Token]) -> Parser<'a>
        ensures { result.tokens.now ≡ tokens.now }
    {
        Parser { alloc, tokens }
    }

    /// What stands there.
    #[tactic(auto, using(crate::proofs::WordLaws::word_absent, crate::proofs::WordLaws::word_there))]
    pub fn word(&self, at: usize) -> Word
        ensures value { result ≡ tok.word self.now.tokens.now at }
        ensures inside { IsInside (length self.now.tokens.now) at result }
    {
        if at >= self.tokens.len() {
            return Word::Absent;
        }
        let token = &self.tokens[at];
        word_of(&token.kind)
    }

    /// Whether this sign stands there.
    #[tactic(auto, unfolding(tree_rules::specs::Tokens::sees))]
    pub fn sees(&self, sign: Sign, at: usize) -> bool
        ensures value { result ≡ tok.sees self.now.tokens.now sign at }
        ensures inside { IsTrue result → at < length self.now.tokens.now }
    {
        match self.word(at) {
            Word::Sign(found) => sign == found,
            _ => false,
        }
    }

    /// Whether this key word stands there.
    #[tactic(auto, unfolding(tree_rules::specs::Tokens::sees_key))]
    pub fn sees_key(&self, key: Key, at: usize) -> bool
        ensures value { result ≡ tok.sees_key self.now.tokens.now key at }
        ensures inside { IsTrue result → at < length self.now.tokens.now }
    {
        match self.word(at) {
            Word::Key(found) => key == found,
            _ => false,
        }
    }

    /// The token behind this sign, or `Syntax` where another token stands there.
    pub fn expect(&self, sign: Sign, at: usize) -> Result<usize, ReadFault>
        ensures { Expects self.now.tokens.now sign at result }
    {
        if self.sees(sign, at) {
            Ok(at + 1)
        } else {
            Err(ReadFault::Syntax(self.no_further(at)))
        }
    }

    /// That no tree goes on there.
    pub fn stuck(&self, at: usize) -> ReadFault
        ensures { IsStuck (length self.now.tokens.now) result }
    {
        ReadFault::Syntax(self.no_further(at))
    }

    /// This number, or that of tokens where it is beyond them.
    fn no_further(&self, at: usize) -> usize
        ensures { result ≤ length self.now.tokens.now }
    {
        at.min(self.tokens.len())
    }
}
