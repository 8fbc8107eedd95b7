ghost use Rattle.std.specs.Prelude.{◌≡◌, ◌↔◌, IsTrue, slice_get};
ghost use Rattle.std.specs.Option.{option_map};
ghost use Rattle.pawn_lex.specs.Look as spec;

use super::token::{Token, Tokens};
use pawn_token::{Key, Sign, TokenKind};

impl Tokens {
    /// What the token with a number is, or none behind the end.
    pub fn kind(&self, at: usize) -> Option<&TokenKind>
        ensures { option_map (λ kind. kind.now) result ≡ spec.kind_at self.now.list at }
    {
        match self.token(at) {
            Some(token) => Some(&token.kind),
            None => None,
        }
    }

    /// Whether it is the first on its line. None is behind the end.
    pub fn is_first(&self, at: usize) -> bool
        ensures { result ≡ spec.is_first self.now.list at }
    {
        match self.token(at) {
            Some(token) => token.first,
            None => false,
        }
    }

    /// Whether it stands directly behind the token before it. None does behind the end.
    pub fn touches(&self, at: usize) -> bool
        ensures { result ≡ spec.touches self.now.list at }
    {
        match self.token(at) {
            Some(token) => token.touches,
            None => false,
        }
    }

    /// Whether statements need their semicolons there. None does behind the end.
    pub fn is_strict(&self, at: usize) -> bool
        ensures { result ≡ spec.is_strict self.now.list at }
    {
        match self.token(at) {
            Some(token) => token.strict,
            None => false,
        }
    }

    /// Whether this sign stands there.
    pub fn sees_sign(&self, at: usize, sign: Sign) -> bool
        ensures { IsTrue result ↔ spec.SeesSign self.now.list at sign }
    {
        match self.kind(at) {
            Some(TokenKind::Sign(found)) => *found == sign,
            _ => false,
        }
    }

    /// Whether this key word stands there.
    pub fn sees_key(&self, at: usize, key: Key) -> bool
        ensures { IsTrue result ↔ spec.SeesKey self.now.list at key }
    {
        match self.kind(at) {
            Some(TokenKind::Key(found)) => *found == key,
            _ => false,
        }
    }

    /// The name that stands there, unless it is `_` alone.
    pub fn name(&self, at: usize) -> Option<&[u8]>
        ensures { option_map (λ name. name.now) result ≡ spec.name_at self.now.list at }
    {
        match self.kind(at) {
            Some(TokenKind::Name(name)) if name.as_slice() != b"_".as_slice() => {
                Some(name.as_slice())
            }
            _ => None,
        }
    }

    /// The token with a number, counted from 0.
    fn token(&self, at: usize) -> Option<&Token>
        ensures { option_map (λ token. token.now) result ≡ slice_get self.now.list at }
    {
        self.list.as_slice().get(at)
    }
}
