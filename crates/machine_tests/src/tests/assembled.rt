ghost use Rattle.std.specs.Prelude.{◌≤◌, IfOk, length};
ghost use Rattle.amx_format.specs.Sorts.{IsWritableSorted};

use super::base::{changed, compact_main, empty_main, every_compact, every_table};
use super::listings::{DATA_LISTING, EMPTY_LISTING, FLAGS_LISTING};
use super::writing::writes_as;
use amx_format::Encoding;
use amx_ops::Amx;
use amx_text::{AsmFault, assemble};
use std::alloc::Global;
use std::test::Fail;

/// The most bytes of a text.
const LIMIT: usize = 16_777_216;

/// The listing of the file with records in each table, all of whose publics begin at instructions.
const VALID_LISTING: &str = "amx flags 32889 version 1 code 7 data 9 room 4 entry -1\n\
    public 0 \"a\"\npublic 8 \"b\"\npublic 8 \"b\"\nnative 5 \"\\34;\"\nlibrary -2 \"\"\n\
    variable 12 \"\\92;\"\ntag 7 \"\\200;\"\n\
    code\n00000000 HALT 0\n00000008 CASETBL 1 8 -7 0\n\
    data\n00000000 -1 0 2147483647 -2147483648 5 6 7 8\n00000020 9\nend\n";

/// The same with its publics in another order than that of their names.
const UNSORTED_LISTING: &str = "amx flags 32889 version 1 code 7 data 9 room 4 entry -1\n\
    public 0 \"b\"\npublic 8 \"a\"\npublic 8 \"b\"\nnative 5 \"\\34;\"\nlibrary -2 \"\"\n\
    variable 12 \"\\92;\"\ntag 7 \"\\200;\"\n\
    code\n00000000 HALT 0\n00000008 CASETBL 1 8 -7 0\n\
    data\n00000000 -1 0 2147483647 -2147483648 5 6 7 8\n00000020 9\nend\n";

/// Two parts of the listing of an empty main: one that stands in it once, and what stands there
/// instead; then the number and the line of its refusal, both 0 where it is assembled.
type Row = (&'static str, &'static str, u8, u32);

/// Lines that have no form, or none that may follow.
const FORMS: [Row; 45] = [
    ("amx ", "", 140, 1),
    ("amx ", "amx  ", 140, 1),
    ("flags 0", "flags 2", 140, 1),
    ("flags 0", "flags 4", 140, 1),
    ("flags 0", "flags 65536", 140, 1),
    ("version 8", "version 08", 140, 1),
    ("version 8", "version 0", 140, 1),
    ("version 8", "version 9", 140, 1),
    ("code 5", "code -5", 140, 1),
    ("code 5", "code 4294967296", 140, 1),
    ("entry 8", "entry -0", 140, 1),
    ("entry 8", "entry 2147483648", 140, 1),
    ("entry 8", "entry -2147483649", 140, 1),
    ("entry 8\n", "entry 8 \n", 140, 1),
    ("code\n", "", 140, 2),
    ("code\n", "\ncode\n", 140, 2),
    ("code\n", "public 8 \"\\65;\"\ncode\n", 140, 2),
    ("code\n", "public 8 \"\\034;\"\ncode\n", 140, 2),
    ("code\n", "public 8 \"\\256;\"\ncode\n", 140, 2),
    ("code\n", "public 8 \"\\0;\"\ncode\n", 140, 2),
    ("code\n", "public 8 \"a\ncode\n", 140, 2),
    ("code\n", "public +8 \"a\"\ncode\n", 140, 2),
    ("code\n", "native 0 \"p\"\npublic 8 \"a\"\ncode\n", 140, 3),
    ("HALT 0", "HALT 00", 140, 3),
    ("HALT 0", "HALT -0", 140, 3),
    ("HALT 0", "HALT +1", 140, 3),
    ("HALT 0", "HALT 2147483648", 140, 3),
    ("HALT 0", "HALT", 140, 3),
    ("PROC", "PROC 0", 140, 4),
    ("PROC", "PROCX", 140, 4),
    ("PROC", "CASETBL 1 8 0", 140, 4),
    ("PROC", "CASETBL -1 8", 140, 4),
    (" PROC", "  PROC", 140, 4),
    ("0000000c", "0000000C", 140, 5),
    ("0000000c", "000000c", 140, 5),
    ("data\n", "", 140, 7),
    ("end\n", "", 140, 8),
    ("end\n", "end", 140, 8),
    ("end\n", "00000000\nend\n", 140, 8),
    ("end\n", "00000000 1 2 3 4 5 6 7 8 9\nend\n", 140, 8),
    ("end\n", "00000000 1\n00000004 2\nend\n", 140, 9),
    ("end\n", "end\nend\n", 140, 9),
    ("end\n", "end\n ", 140, 9),
    // They go before all others.
    ("code 5", "code 33554433 ", 140, 1),
    (
        "0000000c ZERO.pri\n00000010 RETN",
        "0000000d ZERO.pri\n00000010 RETX",
        140,
        6,
    ),
];

fn forms() -> &'static [Row] {
    &FORMS
}

/// Lines of good forms: too large a file, then another address, then another count, then what the
/// verifier refuses.
const OTHERS: [Row; 24] = [
    ("code 5", "code 33554433", 144, 1),
    ("room 4096", "room 33554428", 144, 1),
    ("room 4096", "room 33554427", 0, 0),
    ("code 5", "code 4294967295", 144, 1),
    ("0000000c", "0000000d", 141, 5),
    ("0000000c", "00000010", 141, 5),
    ("00000008 PROC\n", "", 141, 4),
    ("end\n", "00000004 1\nend\n", 141, 8),
    ("0000000c ZERO.pri\n00000010", "0000000d", 141, 5),
    ("00000010 RETN\n", "", 142, 6),
    ("code 5", "code 6", 142, 7),
    ("code 5", "code 0", 142, 7),
    ("data 0", "data 1", 142, 8),
    ("end\n", "00000000 1\nend\n", 142, 9),
    // The code's count goes before the data's, and both before the verifier.
    ("5 data 0", "6 data 1", 142, 7),
    (
        "5 data 0 room 4096 entry 8",
        "6 data 0 room 4096 entry 4",
        142,
        7,
    ),
    ("entry 8", "entry 4", 143, 1),
    ("entry 8", "entry -2", 143, 1),
    ("entry 8", "entry -1", 0, 0),
    (
        "00000008 PROC\n0000000c ZERO.pri",
        "00000008 JUMP 4",
        143,
        4,
    ),
    ("code\n", "public 8 \"a\"\npublic 4 \"b\"\ncode\n", 143, 3),
    ("code\n", "public 8 \"\"\npublic 12 \"\"\ncode\n", 0, 0),
    ("flags 0", "flags 65529", 0, 0),
    ("end\n", "end\n", 0, 0),
];

fn others() -> &'static [Row] {
    &OTHERS
}

/// Assembles a text of at most 16,777,216 bytes.
pub fn assembled(alloc: Global, text: &[u8]) -> Result<Amx, AsmFault>
    requires { length text.now ≤ 16777216 }
    ensures { IfOk result IsWritableSorted }
{
    assemble(alloc, text)
}

/// The number and the line of a text's refusal, both 0 where it is assembled; nothing for want of
/// memory.
pub fn refusal_of(alloc: Global, text: &[u8]) -> Option<(u8, u32)> {
    if LIMIT < text.len() {
        return None;
    }
    match assembled(alloc, text) {
        Ok(_amx) => Some((0, 0)),
        Err(fault) => fault.refusal(),
    }
}

/// Whether the listing of an empty main with a row's change has its refusal.
fn row_holds(alloc: Global, row: &Row) -> bool {
    match EMPTY_LISTING.replacen(alloc, row.0, row.1, 1) {
        Ok(text) => refusal_of(alloc, text.as_bytes()) == Some((row.2, row.3)),
        Err(_) => false,
    }
}

#[test]
fn lines_without_a_form(rt: HostRuntime) {
    for (number, row) in forms().iter().enumerate() {
        assert!(rt; row_holds(rt.alloc(), row), "{number}");
    }
}

#[test]
fn faults_of_good_lines(rt: HostRuntime) {
    for (number, row) in others().iter().enumerate() {
        assert!(rt; row_holds(rt.alloc(), row), "{number}");
    }
}

/// An empty text has no first line.
#[test]
fn an_empty_text(rt: HostRuntime) {
    assert!(rt; refusal_of(rt.alloc(), &[]) == Some((140, 1)));
}

/// Whether the file of a text is written as these bytes.
fn makes(alloc: Global, text: &str, encoding: Encoding, bytes: &[u8]) -> bool {
    let text = text.as_bytes();
    if LIMIT < text.len() {
        return false;
    }
    match assembled(alloc, text) {
        Ok(amx) => writes_as(alloc, &amx, encoding, bytes),
        Err(_) => false,
    }
}

/// Whether it is written as a file with some changes.
fn makes_changed(
    alloc: Global,
    text: &str,
    encoding: Encoding,
    file: &[u8],
    changes: &[u8],
) -> bool {
    match changed(alloc, file, changes) {
        Ok(bytes) => makes(alloc, text, encoding, bytes.as_slice()),
        Err(_) => false,
    }
}

#[test]
fn the_file_of_an_empty_main(rt: HostRuntime) {
    assert!(rt; makes(rt.alloc(), EMPTY_LISTING, Encoding::Plain, empty_main()));
    assert!(rt; makes(rt.alloc(), EMPTY_LISTING, Encoding::Compact, compact_main()));
}

/// Other flags; the same cells as data; publics of good addresses, and the same out of order.
#[test]
fn files_of_listings(rt: HostRuntime) -> Result<(), Fail> {
    let alloc = rt.alloc();
    let compact = every_compact(alloc)?;
    let plain = Encoding::Plain;
    let flags = &[8, 0x79, 9, 0x80];
    assert!(rt; makes_changed(alloc, FLAGS_LISTING, plain, empty_main(), flags));
    let main = &[16, 60, 28, 255, 29, 255, 30, 255, 31, 255];
    assert!(rt; makes_changed(alloc, DATA_LISTING, plain, empty_main(), main));
    let address = &[72, 8];
    assert!(rt; makes_changed(alloc, VALID_LISTING, plain, every_table(), address));
    let cells = compact.as_slice();
    assert!(rt; makes_changed(alloc, VALID_LISTING, Encoding::Compact, cells, address));
    let sorted = &[56, 8, 64, 0, 72, 8];
    assert!(rt; makes_changed(alloc, UNSORTED_LISTING, plain, every_table(), sorted));
    Ok(())
}
