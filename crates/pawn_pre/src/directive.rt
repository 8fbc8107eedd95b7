ghost use Rattle.std.specs.Prelude.{◌≡◌};
ghost use Rattle.pawn_pre.specs.Directive as spec;
ghost use Rattle.pawn_pre.specs.Parsed.{IsDirective, IsPragma};

use super::blanks::{past_blanks, split_word};

/// The word of a directive.
#[derive(Clone, Copy, Debug, PartialEq, Eq)]
pub enum Word {
    Define,
    Undef,
    If,
    ElseIf,
    Else,
    Endif,
    Include,
    TryInclude,
    Error,
    Assert,
    Endinput,
    Pragma,
    Unknown,
}

/// What a `#pragma` sets.
#[derive(Clone, Copy, Debug, PartialEq, Eq)]
pub enum Setting {
    Semicolon,
    Pack,
    Control,
    Dynamic,
    Other,
}

/// A directive's word, and what stands behind it.
#[derive(Clone, Copy, Debug)]
pub struct Parts<'a> {
    pub word: Word,
    pub rest: &'a [u8],
}

/// What a `#pragma` sets, and what stands behind that word.
#[derive(Clone, Copy, Debug)]
pub struct PragmaParts<'a> {
    pub setting: Setting,
    pub rest: &'a [u8],
}

/// The directive that a line is.
pub fn directive(line: &[u8]) -> Option<Parts<'_>>
    ensures { IsDirective (spec.directive line.now) result }
{
    match past_blanks(line) {
        [b'#', rest @ ..] => {
            let bytes = past_blanks(rest);
            let (name, rest) = split_word(bytes);
            let word = word_named(name);
            Some(Parts { word, rest })
        }
        _ => None,
    }
}

/// What stands behind `#pragma`.
pub fn pragma(rest: &[u8]) -> PragmaParts<'_>
    ensures { IsPragma (spec.pragma rest.now) result }
{
    let bytes = past_blanks(rest);
    let (name, rest) = split_word(bytes);
    let setting = setting_named(name);
    PragmaParts { setting, rest }
}

/// A byte between `'` and `'`.
pub fn quoted_byte(bytes: &[u8]) -> Option<u8>
    ensures { result ≡ spec.quoted_byte bytes.now }
{
    match bytes {
        [b'\'', byte, b'\'', ..] => Some(*byte),
        _ => None,
    }
}

fn word_named(name: &[u8]) -> Word
    ensures { result ≡ spec.word_named name.now }
{
    if name == b"define".as_slice() {
        Word::Define
    } else if name == b"undef".as_slice() {
        Word::Undef
    } else if name == b"if".as_slice() {
        Word::If
    } else if name == b"elseif".as_slice() {
        Word::ElseIf
    } else if name == b"else".as_slice() {
        Word::Else
    } else if name == b"endif".as_slice() {
        Word::Endif
    } else if name == b"include".as_slice() {
        Word::Include
    } else if name == b"tryinclude".as_slice() {
        Word::TryInclude
    } else if name == b"error".as_slice() {
        Word::Error
    } else if name == b"assert".as_slice() {
        Word::Assert
    } else if name == b"endinput".as_slice() {
        Word::Endinput
    } else if name == b"pragma".as_slice() {
        Word::Pragma
    } else {
        Word::Unknown
    }
}

fn setting_named(name: &[u8]) -> Setting
    ensures { result ≡ spec.setting_named name.now }
{
    if name == b"semicolon".as_slice() {
        Setting::Semicolon
    } else if name == b"pack".as_slice() {
        Setting::Pack
    } else if name == b"ctrlchar".as_slice() {
        Setting::Control
    } else if name == b"dynamic".as_slice() {
        Setting::Dynamic
    } else {
        Setting::Other
    }
}
