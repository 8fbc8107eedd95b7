use super::shown_lines::{put_number, put_place, same};
use itoa::Buffer;
use pawn_base::{Bytes, List, Memory};
use pawn_cells::Place;
use pawn_lex::{Key, LexFault, Line, Lines, Sign, TokenKind, Tokens, key_of, tokens};
use pawn_pre::value_of;
use std::alloc::Global;
use std::test::Fail;

/// A line in the first file.
fn line_of(
    alloc: Global,
    source: &[u8],
    ctrl: u8,
    packed: bool,
    strict: bool,
) -> Result<Line, Memory> {
    let bytes = Bytes::from_slice(alloc, source)?;
    let place = Place { file: 0, line: 7 };
    Ok(Line {
        place,
        ctrl,
        strict,
        packed,
        bytes,
    })
}

/// The tokens of two lines.
fn tokens_of(alloc: Global, first: Line, second: Line) -> Result<Result<Tokens, LexFault>, Memory> {
    let mut lines = List::new(alloc);
    lines.push(first)?;
    lines.push(second)?;
    let lines = Lines {
        lines,
        files: List::new(alloc),
        dynamic: 0,
    };
    Ok(tokens(alloc, &lines))
}

/// Puts bytes behind a word.
fn put_behind(out: &mut Bytes, word: &[u8], bytes: &[u8]) -> Result<(), Memory> {
    out.append(word)?;
    out.append(bytes)
}

/// Puts what a token is.
fn put_kind(out: &mut Bytes, kind: &TokenKind) -> Result<(), Memory> {
    match kind {
        TokenKind::Name(name) => put_behind(out, b"name:", name.as_slice()),
        TokenKind::Key(key) => put_behind(out, b"key:", key.spelling()),
        TokenKind::Number(number) => {
            put_behind(out, b"number:", Buffer::new().format(*number).as_bytes())
        }
        TokenKind::Text { bytes, packed } => {
            out.append(if *packed { b"packed:" } else { b"text:" })?;
            out.append(bytes.as_slice())
        }
        TokenKind::Sign(sign) => out.append(sign.spelling()),
    }
}

/// Puts each token before a blank.
fn put_tokens(out: &mut Bytes, tokens: &Tokens) -> Result<(), Memory> {
    for token in tokens.list.as_slice() {
        put_kind(out, &token.kind)?;
        out.push(b' ')?;
    }
    Ok(())
}

/// Puts a fault and its place.
fn put_fault(out: &mut Bytes, fault: LexFault) -> Result<(), Memory> {
    match fault {
        LexFault::Source { kind, place } => {
            out.append(b"fault ")?;
            put_number(out, kind as u64, b' ')?;
            put_place(out, place)
        }
        LexFault::Memory => out.append(b"no memory"),
    }
}

/// The tokens of a line behind an empty one, or its fault.
fn shown(alloc: Global, source: &[u8], ctrl: u8, packed: bool) -> Result<Bytes, Memory> {
    let empty = line_of(alloc, b"", ctrl, packed, false)?;
    let line = line_of(alloc, source, ctrl, packed, false)?;
    let mut out = Bytes::new(alloc);
    match tokens_of(alloc, empty, line)? {
        Ok(tokens) => put_tokens(&mut out, &tokens)?,
        Err(fault) => put_fault(&mut out, fault)?,
    }
    Ok(out)
}

/// Lines, and their tokens as text.
const GOOD: [(&[u8], &[u8]); 36] = [
    (b"", b""),
    (b" \t\x0c\r", b""),
    (b"0xFFFFFFFF", b"number:-1 "),
    (b"2147483648 4294967295", b"number:-2147483648 number:-1 "),
    (b"0000000000000000000000007", b"number:7 "),
    (b"0x00aF 0b0101", b"number:175 number:5 "),
    (b"1..5", b"number:1 .. number:5 "),
    (b"1...", b"number:1 ... "),
    (b"1.", b"number:1 . "),
    (b"0b12", b"number:1 number:2 "),
    (
        b"while While _ @a9",
        b"key:while name:While name:_ name:@a9 ",
    ),
    (
        b"abcdefghijklmnopqrstuvwxyz12345",
        b"name:abcdefghijklmnopqrstuvwxyz12345 ",
    ),
    (b"sizeofa tagof", b"name:sizeofa key:tagof "),
    (
        b"a>>>=b>>>c>>=d>>e>f",
        b"name:a >>>= name:b >>> name:c >>= name:d >> name:e > name:f ",
    ),
    (b">>>>=", b">>> >= "),
    (b"....", b"... . "),
    (b"+++--->==", b"++ + -- - >= = "),
    (
        b"()[]{};,.:?=<>+-*/%&|^!~",
        b"( ) [ ] { } ; , . : ? = < > + - * / % & | ^ ! ~ ",
    ),
    (
        b"'a' '\\n' '\\x41;' '\\65' '\\''",
        b"number:97 number:10 number:65 number:65 number:39 ",
    ),
    (b"'\"' \"'\"", b"number:34 text:' "),
    (b"'a'b", b"number:97 name:b "),
    (b"'a'.5", b"number:97 . number:5 "),
    (b"'\xe9'", b"number:233 "),
    (b"\"\"", b"text: "),
    (b"\"a // b\" !\"c\"", b"text:a // b packed:c "),
    (b"! \"a\"", b"! text:a "),
    (b"a!=\"a\"", b"name:a != text:a "),
    (b"!!\"a\"", b"! packed:a "),
    (
        b"\"\\a\\b\\e\\f\\n\\r\\t\\v\"",
        b"text:\x07\x08\x1b\x0c\n\r\t\x0b ",
    ),
    (b"\"\\'\\\"\\%\\\\\"", b"text:'\"%\\ "),
    (b"\"\\0065\\65;\\x41;\\66\"", b"text:AAAB "),
    (b"\"\\n;\"", b"text:\n; "),
    (b"\"\\65;;\"", b"text:A; "),
    (b"\"\\xg\"", b"fault 26 0:7 "),
    (b"\"a\nb\"", b"text:a\nb "),
    (b"\"\\255\\000\"", b"text:\xff\x00 "),
];

/// Lines, and the numbers of their faults.
const BAD: [(&[u8], u8); 40] = [
    (b"`", 20),
    (b"a $ 4294967296", 20),
    (b"#", 20),
    (b"\\", 20),
    (b"\x0b", 20),
    (b"\x00", 20),
    (b"a\n", 20),
    (b"\xc3\xa9", 20),
    (b"0x1G", 21),
    (b"0b2", 21),
    (b"0b", 21),
    (b"0x", 21),
    (b"0X1", 21),
    (b"1e5", 21),
    (b"1_", 21),
    (b"1@", 21),
    (b"1.5", 21),
    (b"0x1.5", 21),
    (b"4294967296x", 21),
    (b"9999999999.5", 21),
    (b"4294967296", 22),
    (b"0x100000000", 22),
    (b"99999999999999999999999999999999", 22),
    (b"'ab'", 23),
    (b"''", 23),
    (b"'''", 23),
    (b"'", 23),
    (b"'a", 23),
    (b"'\xc3\xa9'", 23),
    (b"\"abc", 23),
    (b"!\"abc", 23),
    (b"abcdefghijklmnopqrstuvwxyz123456", 25),
    (b"\"\\999\"", 26),
    (b"\"\\256\"", 26),
    (b"\"\\x100\"", 26),
    (b"\"\\x41BC\"", 26),
    (b"\"\\q", 26),
    (b"'\\qx'", 26),
    (b"\"\\", 26),
    (b"'\\", 26),
];

/// Lines under a control character and a packing.
const SETTINGS: [(&[u8], u8, bool, &[u8]); 12] = [
    (b"\"a\" !\"b\"", b'\\', true, b"packed:a text:b "),
    (b"\"\\n^n\"", b'^', false, b"text:\\n\n "),
    (b"\"a\"", b'"', false, b"fault 26 0:7 "),
    (b"\"a", b'"', false, b"fault 23 0:7 "),
    (b"'aa'", b'a', false, b"number:7 "),
    (b"'55'", b'5', false, b"number:53 "),
    (b"'xx'", b'x', false, b"number:120 "),
    (b"'a'", b'\'', false, b"fault 23 0:7 "),
    (b"'''' a", b'\'', false, b"fault 23 0:7 "),
    (b"''n'", b'\'', false, b"fault 23 0:7 "),
    (b"''''", b'\'', false, b"fault 23 0:7 "),
    (b"'''", b'\'', false, b"fault 23 0:7 "),
];

/// Conditions under a control character, and their values.
const CONDITIONS: [(&[u8], u8, Option<i32>); 20] = [
    (b"1 + 2 * 3 - 'A' == 0b111 - 0x41", b'\\', Some(1)),
    (b"3 > 2 > 1 > 1 || !cellmin >>> 1", b'\\', Some(0)),
    (b"3 > 2 > 1 != 0 < 1 > 1", b'\\', Some(1)),
    (b"(0 ? 1 : 0 ? 2 : -3) % 2", b'\\', Some(1)),
    (b"1 ? true:2", b'\\', Some(1)),
    (b"'\\x41;' + ~-1", b'\\', Some(65)),
    (b"'^n'", b'^', Some(10)),
    (b"cellmin / -1 == cellmin", b'\\', Some(1)),
    (b"1 || 1/0", b'\\', None),
    (b"0 > 1 > 1/0", b'\\', None),
    (b"1 +", b'\\', None),
    (b"x", b'\\', None),
    (b"true:2", b'\\', None),
    (b"1.5", b'\\', None),
    (b"\"a\"", b'\\', None),
    (b"1 - --1", b'\\', None),
    (b"'a'", b'\'', None),
    (b"''n'", b'\'', None),
    (b"''''", b'\'', None),
    (b"'''", b'\'', None),
];

fn good() -> &'static [(&'static [u8], &'static [u8])] {
    &GOOD
}

/// The number of the first line that has other tokens.
fn first_with_others(alloc: Global) -> Result<Option<usize>, Memory> {
    for (row, (source, want)) in good().iter().enumerate() {
        if !same(shown(alloc, *source, b'\\', false)?.as_slice(), *want) {
            return Ok(Some(row));
        }
    }
    Ok(None)
}

#[test]
fn lines_have_tokens(rt: HostRuntime) -> Result<(), Fail> {
    assert_eq!(rt; first_with_others(rt.alloc())?, None);
    Ok(())
}

/// Whether a line has this fault, in its place.
fn is_fault(alloc: Global, source: &[u8], kind: u8) -> Result<bool, Memory> {
    let mut want = Bytes::new(alloc);
    let place = Place { file: 0, line: 7 };
    put_fault(&mut want, LexFault::Source { kind, place })?;
    let got = shown(alloc, source, b'\\', false)?;
    Ok(same(got.as_slice(), want.as_slice()))
}

fn bad() -> &'static [(&'static [u8], u8)] {
    &BAD
}

/// The number of the first line that has another fault.
fn first_without_fault(alloc: Global) -> Result<Option<usize>, Memory> {
    for (row, (source, kind)) in bad().iter().enumerate() {
        if !is_fault(alloc, *source, *kind)? {
            return Ok(Some(row));
        }
    }
    Ok(None)
}

#[test]
fn lines_have_faults(rt: HostRuntime) -> Result<(), Fail> {
    assert_eq!(rt; first_without_fault(rt.alloc())?, None);
    Ok(())
}

/// A line, its control character, whether it is packed, and its tokens.
type Setting = (&'static [u8], u8, bool, &'static [u8]);

fn settings() -> &'static [Setting] {
    &SETTINGS
}

/// The number of the first setting under which a line has other tokens.
fn first_unlike(alloc: Global) -> Result<Option<usize>, Memory> {
    for (row, (source, ctrl, packed, want)) in settings().iter().enumerate() {
        if !same(shown(alloc, *source, *ctrl, *packed)?.as_slice(), *want) {
            return Ok(Some(row));
        }
    }
    Ok(None)
}

#[test]
fn settings_of_a_line(rt: HostRuntime) -> Result<(), Fail> {
    assert_eq!(rt; first_unlike(rt.alloc())?, None);
    Ok(())
}

/// A condition, its control character, and its value.
type Condition = (&'static [u8], u8, Option<i32>);

fn conditions() -> &'static [Condition] {
    &CONDITIONS
}

/// The number of the first condition that has another value.
fn first_with_other_value(alloc: Global) -> Result<Option<usize>, Memory> {
    for (row, (text, control, want)) in conditions().iter().enumerate() {
        if value_of(alloc, *control, *text)? != *want {
            return Ok(Some(row));
        }
    }
    Ok(None)
}

#[test]
fn conditions_have_values(rt: HostRuntime) -> Result<(), Fail> {
    assert_eq!(rt; first_with_other_value(rt.alloc())?, None);
    Ok(())
}

/// The tokens of two lines, of which the second is strict.
fn two_lines(alloc: Global) -> Result<Result<Tokens, LexFault>, Memory> {
    let first = line_of(alloc, b"  a+ while", b'\\', false, false)?;
    let second = line_of(alloc, b"!\"c\"_", b'\\', false, true)?;
    tokens_of(alloc, first, second)
}

/// Of each token of the two lines, and behind the last: whether it is the first of its line, stands
/// directly behind the one before, and is strict.
const FLAGS: [(bool, bool, bool); 6] = [
    (true, false, false),
    (false, true, false),
    (false, false, false),
    (true, false, true),
    (false, true, true),
    (false, false, false),
];

/// Whether the tokens have these flags.
fn have_flags(read: &Tokens) -> bool {
    let mut are_so = true;
    for (at, (first, touches, strict)) in FLAGS.iter().enumerate() {
        are_so = are_so && read.is_first(at) == *first;
        are_so = are_so && read.touches(at) == *touches;
        are_so = are_so && read.is_strict(at) == *strict;
    }
    are_so
}

/// Whether the names of the two lines are seen, and where tokens end.
fn have_names(read: &Tokens) -> bool {
    let is_named = read.name(0) == Some(b"a".as_slice()) && read.name(4) == None;
    is_named && read.kind(4).is_some() && read.kind(5).is_none()
}

/// Whether signs and key words of the two lines are seen.
fn have_words(read: &Tokens) -> bool {
    let has_sign = read.sees_sign(1, Sign::Plus) && !read.sees_sign(1, Sign::Increment);
    has_sign && read.sees_key(2, Key::While) && !read.sees_key(5, Key::While)
}

#[test]
fn tokens_are_seen(rt: HostRuntime) -> Result<(), Fail> {
    let are_seen = match two_lines(rt.alloc())? {
        Ok(read) => have_flags(&read) && have_names(&read) && have_words(&read),
        Err(_) => false,
    };
    assert!(rt; are_seen && key_of(b"while") == Some(Key::While));
    Ok(())
}
