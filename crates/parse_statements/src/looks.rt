ghost use Rattle.std.specs.Prelude.{◌≡◌, ◌<◌, suc, length, IsTrue, IfOk};
ghost use Rattle.tree_rules.specs.Tokens as tok;
ghost use Rattle.tree_rules.specs.Expressions.{behind_brackets};
ghost use Rattle.tree_rules.specs.ReadExpressions as spec;

use super::token_parser::Parser;
use pawn_base::{Bytes, Memory};
use pawn_cells::Place;
use pawn_token::{Key, Sign, TokenKind};
use pawn_tree::{At, Name, Text};
use std::alloc::Global;
use tree_rules::Word;

/// The value of a kind, if it is a number.
fn value_of(kind: &TokenKind) -> i32
    ensures { result ≡ tok.value_of kind.now }
{
    match kind {
        TokenKind::Number(value) => *value,
        _ => 0,
    }
}

/// The bytes of a kind, if it is a name or a text.
fn spelling_of(alloc: Global, kind: &TokenKind) -> Result<Bytes, Memory>
    ensures { IfOk result (λ bytes. bytes ≡ tok.spelling_of kind.now) }
{
    match kind {
        TokenKind::Name(bytes) => Bytes::from_slice(alloc, bytes.as_slice()),
        TokenKind::Text { bytes, .. } => Bytes::from_slice(alloc, bytes.as_slice()),
        _ => Ok(Bytes::new(alloc)),
    }
}

/// Whether a kind is a packed text.
fn packed_of(kind: &TokenKind) -> bool
    ensures { result ≡ tok.packed_of kind.now }
{
    match kind {
        TokenKind::Text { packed, .. } => *packed,
        _ => false,
    }
}

impl<'a> Parser<'a> {
    /// Whether it is the first on its line. What stands behind the last token is.
    #[tactic(auto, unfolding(tree_rules::specs::Tokens::is_first))]
    pub fn is_first(&self, at: usize) -> bool
        ensures { result ≡ tok.is_first self.now.tokens.now at }
    {
        match self.tokens.get(at) {
            Some(token) => token.first,
            None => true,
        }
    }

    /// Whether it stands directly behind the token before it.
    #[tactic(auto, unfolding(tree_rules::specs::Tokens::touches))]
    pub fn touches(&self, at: usize) -> bool
        ensures { result ≡ tok.touches self.now.tokens.now at }
    {
        match self.tokens.get(at) {
            Some(token) => token.touches,
            None => false,
        }
    }

    /// Whether each statement needs its semicolon there.
    #[tactic(auto, unfolding(tree_rules::specs::Tokens::is_strict))]
    pub fn is_strict(&self, at: usize) -> bool
        ensures { result ≡ tok.is_strict self.now.tokens.now at }
    {
        match self.tokens.get(at) {
            Some(token) => token.strict,
            None => false,
        }
    }

    /// The token's number and its place.
    #[tactic(auto, unfolding(tree_rules::specs::Tokens::at))]
    pub fn at(&self, at: usize) -> At
        ensures { result ≡ tok.at self.now.tokens.now at }
    {
        match self.tokens.get(at) {
            Some(token) => At {
                token: at,
                place: token.place,
            },
            None => At {
                token: at,
                place: Place { file: 0, line: 0 },
            },
        }
    }

    /// The value of a number.
    #[tactic(auto, unfolding(tree_rules::specs::Tokens::value))]
    pub fn value(&self, at: usize) -> i32
        ensures { result ≡ tok.value self.now.tokens.now at }
    {
        match self.tokens.get(at) {
            Some(token) => value_of(&token.kind),
            None => 0,
        }
    }

    /// The bytes of a name or a text.
    #[tactic(auto, unfolding(tree_rules::specs::Tokens::spelling))]
    pub fn spelling(&self, at: usize) -> Result<Bytes, Memory>
        ensures { IfOk result (λ bytes. bytes ≡ tok.spelling self.now.tokens.now at) }
    {
        match self.tokens.get(at) {
            Some(token) => spelling_of(self.alloc, &token.kind),
            None => Ok(Bytes::new(self.alloc)),
        }
    }

    /// Whether a text is packed.
    #[tactic(auto, unfolding(tree_rules::specs::Tokens::is_packed))]
    pub fn is_packed(&self, at: usize) -> bool
        ensures { result ≡ tok.is_packed self.now.tokens.now at }
    {
        match self.tokens.get(at) {
            Some(token) => packed_of(&token.kind),
            None => false,
        }
    }

    /// The name that stands there, or `_`.
    pub fn name_at(&self, at: usize) -> Result<Name, Memory>
        ensures { IfOk result (λ name. name ≡ tok.name_at self.now.tokens.now at) }
    {
        Ok(Name {
            at: self.at(at),
            bytes: self.spelling(at)?,
        })
    }

    /// The text that stands there.
    pub fn text_at(&self, at: usize) -> Result<Text, Memory>
        ensures { IfOk result (λ text. text ≡ tok.text_at self.now.tokens.now at) }
    {
        Ok(Text {
            at: self.at(at),
            bytes: self.spelling(at)?,
            packed: self.is_packed(at),
        })
    }

    /// Whether a name other than `_` stands there.
    pub fn is_name(&self, at: usize) -> bool
        ensures value { result ≡ tok.is_name (tok.word self.now.tokens.now at) }
        ensures inside { IsTrue result → at < length self.now.tokens.now }
    {
        matches!(self.word(at), Word::Name)
    }

    /// Whether `_` stands there.
    pub fn is_blank(&self, at: usize) -> bool
        ensures value { result ≡ tok.is_blank_word (tok.word self.now.tokens.now at) }
        ensures inside { IsTrue result → at < length self.now.tokens.now }
    {
        matches!(self.word(at), Word::Blank)
    }

    /// Whether a name or `_` stands there.
    pub fn is_label(&self, at: usize) -> bool
        ensures value { result ≡ tok.is_label (tok.word self.now.tokens.now at) }
        ensures inside { IsTrue result → at < length self.now.tokens.now }
    {
        matches!(self.word(at), Word::Name | Word::Blank)
    }

    /// Whether a tag stands there: a name or `_`, and a colon that touches it.
    #[tactic(auto, unfolding(tree_rules::specs::Tokens::is_tag))]
    pub fn is_tag(&self, at: usize) -> bool
        ensures value { result ≡ tok.is_tag self.now.tokens.now at }
        ensures inside { IsTrue result → suc at < length self.now.tokens.now }
    {
        if !self.is_label(at) {
            return false;
        }
        self.sees(Sign::Colon, at + 1) && self.touches(at + 1)
    }

    /// The tag that stands there, if one does.
    #[tactic(auto, unfolding(tree_rules::specs::Tokens::tag_at))]
    pub fn tag_at(&self, at: usize) -> Result<Option<Name>, Memory>
        ensures { IfOk result (λ tag. tag ≡ tok.tag_at self.now.tokens.now at) }
    {
        if !self.is_tag(at) {
            return Ok(None);
        }
        let tag = self.name_at(at)?;
        Ok(Some(tag))
    }

    /// The tag at `start`, if one stands there, and the name at `at`.
    pub(crate) fn tagged_name(
        &self,
        start: usize,
        at: usize,
    ) -> Result<(Option<Name>, Name), Memory>
        ensures tag { IfOk result (λ both. both.0 ≡ tok.tag_at self.now.tokens.now start) }
        ensures name { IfOk result (λ both. both.1 ≡ tok.name_at self.now.tokens.now at) }
    {
        let tag = self.tag_at(start)?;
        let name = self.name_at(at)?;
        Ok((tag, name))
    }

    /// The token behind the tag, where one stands there.
    #[tactic(auto, unfolding(tree_rules::specs::Tokens::behind_tag))]
    pub fn behind_tag(&self, at: usize) -> usize
        ensures { result ≡ tok.behind_tag self.now.tokens.now at }
    {
        if self.is_tag(at) { at + 2 } else { at }
    }

    /// The token behind this sign, where it stands there.
    #[tactic(auto, unfolding(tree_rules::specs::Tokens::behind_sign))]
    pub fn behind_sign(&self, sign: Sign, at: usize) -> usize
        ensures { result ≡ tok.behind_sign self.now.tokens.now sign at }
    {
        if self.sees(sign, at) { at + 1 } else { at }
    }

    /// The token behind this key word, where it stands there.
    #[tactic(auto, unfolding(tree_rules::specs::Tokens::behind_key))]
    pub fn behind_key(&self, key: Key, at: usize) -> usize
        ensures { result ≡ tok.behind_key self.now.tokens.now key at }
    {
        if self.sees_key(key, at) { at + 1 } else { at }
    }

    /// Whether `[]` stands there.
    fn pair(&self, at: usize) -> bool
        ensures value { result ≡ spec.pair self.now.tokens.now at }
        ensures inside { IsTrue result → suc at < length self.now.tokens.now }
    {
        self.sees(Sign::OpenBracket, at) && self.sees(Sign::CloseBracket, at + 1)
    }

    /// How many `[]` stand there, two at most, and the token behind them.
    #[tactic(auto, unfolding(tree_rules::specs::ReadExpressions::pairs))]
    pub(crate) fn pairs(&self, at: usize) -> (usize, usize)
        ensures count { result.0 ≡ spec.pairs self.now.tokens.now at }
        ensures stop { result.1 ≡ behind_brackets (spec.pairs self.now.tokens.now at) at }
    {
        if !self.pair(at) {
            return (0, at);
        }
        if !self.pair(at + 2) {
            return (1, at + 2);
        }
        (2, at + 4)
    }
}
