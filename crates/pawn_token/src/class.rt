ghost use Rattle.std.specs.Prelude.{◌≡◌, drop, slice_index};
ghost use Rattle.std.specs.List.{prefix_len};
ghost use Rattle.pawn_token.specs.Class.{is_in, run, after};

/// Sets of bytes (Language Guide, "General syntax").
#[derive(Clone, Copy, Debug, PartialEq, Eq)]
pub enum Class {
    /// A space, a tab, a form feed or a carriage return.
    Blank,
    /// A letter, `_` or `@`, which begins a name.
    NameStart,
    /// What stands in a name: those, and digits.
    NameByte,
    Digit,
    Hexadecimal,
    Binary,
}

/// Whether a byte is in a set.
#[tactic(auto, unfolding(crate::specs::Class::is_in))]
pub fn is_in(class: Class, byte: u8) -> bool
    ensures { result ≡ is_in class byte }
{
    match class {
        Class::Blank => matches!(byte, b' ' | b'\t' | 12 | b'\r'),
        Class::NameStart => matches!(byte, b'A'..=b'Z' | b'a'..=b'z' | b'_' | b'@'),
        Class::NameByte => matches!(byte, b'A'..=b'Z' | b'a'..=b'z' | b'_' | b'@' | b'0'..=b'9'),
        Class::Digit => matches!(byte, b'0'..=b'9'),
        Class::Hexadecimal => matches!(byte, b'0'..=b'9' | b'A'..=b'F' | b'a'..=b'f'),
        Class::Binary => matches!(byte, b'0' | b'1'),
    }
}

/// A byte, or 0 behind the last one. No class has 0.
pub fn byte_at(bytes: &[u8], index: usize) -> u8
    ensures { result ≡ slice_index bytes.now index }
{
    match bytes.get(index) {
        Some(byte) => *byte,
        None => 0,
    }
}

/// The bytes behind so many.
pub fn behind(bytes: &[u8], count: usize) -> &[u8]
    ensures { result.now ≡ drop count bytes.now }
{
    if count < bytes.len() {
        &bytes[count..]
    } else {
        &[]
    }
}

/// The bytes of a class at the front, and what follows them.
pub fn split(class: Class, bytes: &[u8]) -> (&[u8], &[u8])
    ensures front { result.0.now ≡ run class bytes.now }
    ensures rest { result.1.now ≡ after class bytes.now }
{
    bytes.split_at(run_length(class, bytes))
}

/// How many bytes of a class stand at the front.
fn run_length(class: Class, bytes: &[u8]) -> usize
    ensures { result ≡ prefix_len (is_in class) bytes.now }
{
    for (index, byte) in bytes.iter().enumerate() {
        if !is_in(class, *byte) {
            return index;
        }
    }
    bytes.len()
}
