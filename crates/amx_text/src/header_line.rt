ghost use Rattle.std.specs.Prelude.{◌≡◌, ◌<◌, ◌^◌, IsTrue};
ghost use Rattle.amx_text.specs.Readers.{Gives, field_at, fits_flags, fits_version, header_at};

use super::header::Header;
use super::reader::{after_word, cell_at, number_at};

/// The header with which a text begins, and what stands behind its line.
pub fn header_at(text: &[u8]) -> Option<(Header, &[u8])>
    ensures { Gives (header_at text.now) result }
{
    let (flags, rest) = field_at(b"amx flags ", text)?;
    let (version, rest) = field_at(b" version ", rest)?;
    let (code, rest) = field_at(b" code ", rest)?;
    let (store, rest) = field_at(b" data ", rest)?;
    let (room, rest) = field_at(b" room ", rest)?;
    let (entry, rest) = cell_at(after_word(rest, b" entry ")?)?;
    let rest = after_word(rest, b"\n")?;
    if fits_flags(flags) && fits_version(version) {
        let header = Header {
            flags: flags as u16,
            version: version as u8,
            code,
            store,
            room,
            entry,
        };
        Some((header, rest))
    } else {
        None
    }
}

/// The number behind a word, and what stands behind it.
fn field_at<'t>(word: &[u8], text: &'t [u8]) -> Option<(u32, &'t [u8])>
    ensures { Gives (field_at word.now text.now) result }
{
    number_at(after_word(text, word)?)
}

/// Whether flags fit two bytes and have neither of the bits 0x02 and 0x04.
fn fits_flags(flags: u32) -> bool
    ensures is { result ≡ fits_flags flags }
    ensures small { IsTrue result → flags < 2 ^ 16 }
{
    flags <= 0xFFFF && flags / 2 % 4 == 0
}

fn fits_version(version: u32) -> bool
    ensures is { result ≡ fits_version version }
    ensures small { IsTrue result → version < 2 ^ 8 }
{
    1 <= version && version <= 8
}
