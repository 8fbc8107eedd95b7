ghost use Rattle.std.specs.Prelude.{◌≡◌, find, nat_eq};
ghost use Rattle.std.specs.List.{starts_with};
ghost use Rattle.std.specs.Str.{bytes_eq};
ghost use Rattle.pawn_token.specs.Keys.{key_of, key_spelling};
ghost use Rattle.pawn_token.specs.Reading.{sign_at};
ghost use Rattle.pawn_token.specs.Signs.{sign_spelling};

use super::key::{KEYS, Key};
use super::sign::{SIGNS, Sign};

/// The key word that is spelled so.
#[tactic(auto, unfolding(crate::specs::Keys::key_of))]
pub fn key_of(word: &[u8]) -> Option<Key>
    ensures { result ≡ key_of word.now }
{
    key_among(&KEYS, word)
}

/// The longest sign at the front.
#[tactic(auto, unfolding(crate::specs::Reading::sign_at))]
pub fn sign_at(bytes: &[u8]) -> Option<Sign>
    ensures { result ≡ sign_at bytes.now }
{
    sign_among(&SIGNS, bytes)
}

/// Which of some key words is spelled so.
fn key_among(keys: &[Key], word: &[u8]) -> Option<Key>
    ensures { result ≡ find (λ key. bytes_eq (key_spelling key) word.now) keys.now }
{
    for key in keys {
        if key.spelling() == word {
            return Some(*key);
        }
    }
    None
}

/// The first of some signs that stands at the front.
fn sign_among(signs: &[Sign], bytes: &[u8]) -> Option<Sign>
    ensures { result ≡ find (λ sign. starts_with nat_eq bytes.now (sign_spelling sign)) signs.now }
{
    for sign in signs {
        if bytes.starts_with(sign.spelling()) {
            return Some(*sign);
        }
    }
    None
}
