use super::shown_lines::{put_number, same};
use pawn_base::{Bytes, Memory};
use pawn_pre::{past_blanks, read_rows, split_word, trimmed, trimmed_end};
use pawn_token::{Class, is_in};
use std::alloc::Global;
use std::test::Fail;

/// Bytes, and whether they are in a class.
const CLASSES: [(Class, u8, bool); 8] = [
    (Class::Blank, b'\t', true),
    (Class::Blank, b'\n', false),
    (Class::Digit, b'9', true),
    (Class::Digit, b'a', false),
    (Class::NameStart, b'@', true),
    (Class::NameStart, b'1', false),
    (Class::NameByte, b'1', true),
    (Class::NameByte, b'-', false),
];

/// Whether each byte is in its class, or isn't.
fn are_in_classes(table: &[(Class, u8, bool)]) -> bool {
    for (class, byte, want) in table {
        if is_in(*class, *byte) != *want {
            return false;
        }
    }
    true
}

/// Whether words are split, and blanks cut.
fn are_cut() -> bool {
    let is_split = same(split_word(b"a1_-b").0, b"a1_");
    let is_trimmed = same(trimmed_end(b" a b \r"), b" a b") && same(trimmed(b" a b \r"), b"a b");
    is_split && is_trimmed && same(past_blanks(b" \ta b "), b"a b ")
}

#[test]
fn bytes(rt: HostRuntime) {
    assert!(rt; are_in_classes(&CLASSES) && are_cut());
}

/// The rows of a file with their numbers, each before a `|`, and then its last line, with a `*`
/// where a comment is open at the end.
fn shown_rows(alloc: Global) -> Result<Bytes, Memory> {
    let file = read_rows(alloc, b"a\\\r\nb // c\n'/*' /* d\ne */ f\\\n\n/* g")?;
    let mut out = Bytes::new(alloc);
    for row in &file.rows {
        put_number(&mut out, row.number as u64, b':')?;
        out.append(row.bytes.as_slice())?;
        out.push(b'|')?;
    }
    let mark = if file.unclosed { b'*' } else { b'.' };
    put_number(&mut out, file.last as u64, mark)?;
    Ok(out)
}

#[test]
fn rows(rt: HostRuntime) -> Result<(), Fail> {
    let got = shown_rows(rt.alloc())?;
    assert!(rt; same(got.as_slice(), b"1:ab  |3:'/*'  |4: f|6*"));
    Ok(())
}
