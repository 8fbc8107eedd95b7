ghost use Rattle.std.specs.Prelude.{◌≡◌, ◌+◌, ◌-◌, ◌<◌, ◌≤◌, ◌≢◌, ◌↔◌, ℕ, length, take};
ghost use Rattle.std.specs.Prelude.{slice_index, IsTrue, IfOk, IfErr};
ghost use Rattle.amx_format.specs.Header.{header_of, HasSize, HasOrder};
ghost use Rattle.amx_format.specs.Records.{AllNames, IsInside, IsClosed};
ghost use Rattle.amx_format.specs.Faults.{order, IsFreeOfAll, IsFirst};

use super::fault::FormatFault;
use super::header::{HEADER, Header, MAGIC, RECORD};

/// The header of bytes that have no fault before those of cells.
pub fn check(bytes: &[u8]) -> Result<Header, FormatFault>
    ensures header { IfOk result (λ header. header ≡ header_of bytes.now) }
    ensures sound { IfOk result (λ _. IsFreeOfAll order bytes.now) }
    ensures first { IfErr result (λ fault. IsFirst bytes.now fault) }
{
    if bytes.len() < HEADER as usize {
        return Err(FormatFault::TooShort);
    }
    let header = Header::read(bytes);
    if header.magic != MAGIC {
        return Err(FormatFault::Magic);
    }
    if !header.has_versions() {
        return Err(FormatFault::Version);
    }
    if header.record_size != RECORD {
        return Err(FormatFault::RecordSize);
    }
    if !header.has_size(bytes.len()) {
        return Err(FormatFault::SizeDiffers);
    }
    if !header.has_order() {
        return Err(FormatFault::Order);
    }
    if !are_inside(bytes, &header) {
        return Err(FormatFault::NameOutside);
    }
    if !are_closed(bytes, &header) {
        return Err(FormatFault::NameOpen);
    }
    Ok(header)
}

/// Whether each name begins in the name table.
fn are_inside(bytes: &[u8], header: &Header) -> bool
    requires { header.now.names + 2 ≤ length bytes.now }
    ensures { IsTrue result ↔ AllNames (IsInside header.now) bytes.now header.now }
{
    for index in 0..header.records() {
        let place = header.name_place(bytes, index) as usize;
        if place < header.names as usize + 2 || header.cod as usize <= place {
            return false;
        }
    }
    true
}

/// Whether each name ends before the code. The last zero byte there ends all names that end.
fn are_closed(bytes: &[u8], header: &Header) -> bool
    requires names { header.now.names ≤ length bytes.now }
    requires code { header.now.cod ≤ length bytes.now }
    ensures { IsTrue result ↔
        AllNames (IsClosed (take header.now.cod bytes.now)) bytes.now header.now }
{
    let past = past_last_zero(&bytes[..header.cod as usize]);
    for index in 0..header.records() {
        if past <= header.name_place(bytes, index) as usize {
            return false;
        }
    }
    true
}

/// The place behind the last zero byte, or 0.
pub fn past_last_zero(text: &[u8]) -> usize
    ensures within { result ≤ length text.now }
    ensures zero { 0 < result → slice_index text.now (result - 1) ≡ 0 }
    ensures last { (place : ℕ) → result ≤ place → place < length text.now
        → slice_index text.now place ≢ 0 }
{
    let mut past = 0;
    for (index, byte) in text.iter().enumerate() {
        if *byte == 0 {
            past = index + 1;
        }
    }
    past
}
