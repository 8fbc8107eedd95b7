ghost use Rattle.std.specs.Prelude.{◌+◌, ◌≤◌, length};
ghost use Rattle.amx_ops.specs.Writable.{cells_limit};

use super::base::{changed, compact_main, empty_main, every_compact, every_table, is_front};
use amx_format::read;
use amx_ops::Amx;
use amx_text::list;
use pawn_outside::{MemorySink, Sink, WriteAnswer};
use std::alloc::{AllocError, Global};
use std::test::Fail;

/// The listing of an empty main.
pub const EMPTY_LISTING: &str = "amx flags 0 version 8 code 5 data 0 room 4096 entry 8\n\
    code\n00000000 HALT 0\n00000008 PROC\n0000000c ZERO.pri\n00000010 RETN\ndata\nend\n";

/// That of a file with other flags.
pub const FLAGS_LISTING: &str = "amx flags 32889 version 8 code 5 data 0 room 4096 entry 8\n\
    code\n00000000 HALT 0\n00000008 PROC\n0000000c ZERO.pri\n00000010 RETN\ndata\nend\n";

/// The same cells as data.
pub const DATA_LISTING: &str = "amx flags 0 version 8 code 0 data 5 room 4096 entry -1\n\
    code\ndata\n00000000 120 0 46 89 48\nend\n";

/// That of the file with records in each table.
const EVERY_LISTING: &str = "amx flags 32889 version 1 code 7 data 9 room 4 entry -1\n\
    public 0 \"a\"\npublic 8 \"b\"\npublic 4 \"b\"\nnative 5 \"\\34;\"\nlibrary -2 \"\"\n\
    variable 12 \"\\92;\"\ntag 7 \"\\200;\"\n\
    code\n00000000 HALT 0\n00000008 CASETBL 1 8 -7 0\n\
    data\n00000000 -1 0 2147483647 -2147483648 5 6 7 8\n00000020 9\nend\n";

/// The same with the names of the first two publics exchanged: a file's order is kept.
const UNSORTED_LISTING: &str = "amx flags 32889 version 1 code 7 data 9 room 4 entry -1\n\
    public 0 \"b\"\npublic 8 \"a\"\npublic 4 \"b\"\nnative 5 \"\\34;\"\nlibrary -2 \"\"\n\
    variable 12 \"\\92;\"\ntag 7 \"\\200;\"\n\
    code\n00000000 HALT 0\n00000008 CASETBL 1 8 -7 0\n\
    data\n00000000 -1 0 2147483647 -2147483648 5 6 7 8\n00000020 9\nend\n";

/// A file with some changes, and eight bytes behind it.
fn followed(alloc: Global, file: &[u8], changes: &[u8]) -> Result<Vec<u8>, AllocError> {
    let mut bytes = changed(alloc, file, changes)?;
    bytes.extend_from_slice(&[1; 8])?;
    Ok(bytes)
}

/// Whether these bytes are a file whose listing is this text.
fn lists(alloc: Global, bytes: &[u8], text: &str) -> bool {
    match read(alloc, bytes) {
        Ok(amx) => is_listed(alloc, &amx, text, 2000) == Some(true),
        Err(_) => false,
    }
}

/// Whether a sink of some room takes a file's listing; none where what it took is no front of the
/// text, or not the whole text where all was taken.
fn is_listed(alloc: Global, amx: &Amx, text: &str, room: u32) -> Option<bool>
    requires { length amx.now.code + length amx.now.store + amx.now.room ≤ cells_limit }
{
    let mut out = MemorySink::new(alloc, room, &[]).ok()?;
    let is_taken = list(amx, &mut out) == WriteAnswer::Taken;
    is_front(out.bytes(), text.as_bytes(), is_taken).then_some(is_taken)
}

#[test]
fn an_empty_main(rt: HostRuntime) {
    assert!(rt; lists(rt.alloc(), empty_main(), EMPTY_LISTING));
    assert!(rt; lists(rt.alloc(), compact_main(), EMPTY_LISTING));
}

#[test]
fn every_table_in_both_encodings(rt: HostRuntime) -> Result<(), Fail> {
    let compact = every_compact(rt.alloc())?;
    let is_compact = lists(rt.alloc(), compact.as_slice(), EVERY_LISTING);
    assert!(rt; is_compact && lists(rt.alloc(), every_table(), EVERY_LISTING));
    Ok(())
}

/// Whether the listing of a file with some changes is this text.
fn lists_changed(alloc: Global, file: &[u8], changes: &[u8], text: &str) -> bool {
    match followed(alloc, file, changes) {
        Ok(bytes) => lists(alloc, bytes.as_slice(), text),
        Err(_) => false,
    }
}

/// The same cells as data, flags that are kept, and publics that are in no order.
#[test]
fn changes_of_files(rt: HostRuntime) {
    let main = &[16, 60, 28, 255, 29, 255, 30, 255, 31, 255, 8, 2];
    let names = &[60, 116, 68, 114, 8, 0x7B];
    let flags = &[8, 0x7B, 9, 0x80];
    assert!(rt; lists_changed(rt.alloc(), empty_main(), main, DATA_LISTING));
    assert!(rt; lists_changed(rt.alloc(), empty_main(), flags, FLAGS_LISTING));
    assert!(rt; lists_changed(rt.alloc(), every_table(), names, UNSORTED_LISTING));
}

/// Whether a sink of each room takes the text exactly where it fits, and else a front of it.
fn is_cut(alloc: Global, amx: &Amx) -> bool
    requires { length amx.now.code + length amx.now.store + amx.now.room ≤ cells_limit }
{
    let length = EVERY_LISTING.len();
    for room in 0..length + 1 {
        if is_listed(alloc, amx, EVERY_LISTING, room as u32) != Some(room == length) {
            return false;
        }
    }
    true
}

/// Whether that holds of the file with records in each table.
fn every_table_is_cut(alloc: Global) -> bool {
    match read(alloc, every_table()) {
        Ok(amx) => is_cut(alloc, &amx),
        Err(_) => false,
    }
}

#[test]
fn a_sink_of_each_room(rt: HostRuntime) {
    assert!(rt; every_table_is_cut(rt.alloc()));
}
