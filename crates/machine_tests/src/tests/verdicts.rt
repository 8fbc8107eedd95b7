use super::base::{changed, empty_main, two_natives, with_code};
use amx_format::read;
use amx_verify::{Verified, VerifyFault, verify};
use std::alloc::{AllocError, Global};
use std::test::Fail;

/// The fault of a number at a place.
fn fault_at(number: u8, at: i32) -> VerifyFault {
    let place = at.cast_unsigned();
    match number {
        100 => VerifyFault::Opcode(place),
        101 => VerifyFault::Cut(place),
        102 => VerifyFault::Target(place),
        103 => VerifyFault::CaseTable(place),
        104 => VerifyFault::Native(place),
        105 => VerifyFault::Register(place),
        106 => VerifyFault::ByteCount(place),
        107 => VerifyFault::Entry(at),
        _ => VerifyFault::Memory,
    }
}

/// Whether a fault is the one of a number at a place, and tells that number.
fn is_told(fault: VerifyFault, number: u8, at: i32) -> bool {
    fault == fault_at(number, at) && fault.number() == Some(number)
}

/// Whether these bytes are a file whose first fault has this number and this place, or a valid one
/// where the number is 0.
fn is_judged(alloc: Global, bytes: &[u8], number: u8, at: i32) -> bool {
    match read(alloc, bytes) {
        Ok(amx) => match verify(alloc, amx) {
            Ok(_verified) => number == 0,
            Err(fault) => is_told(fault, number, at),
        },
        Err(_) => false,
    }
}

/// Code with the number and the place of its first fault.
type Code = (&'static [i32], u8, i32);

const CODES: [Code; 42] = [
    (&[120, 0, 46, 89, 48], 0, 0),
    (&[38, 0, 46, 89, 48], 100, 0),
    (&[120, 0, 129, 89, 48], 103, 8),
    (&[120, 0, 130, -1, 48], 103, 8),
    (&[120, 0, 130, 5, 48], 101, 8),
    (&[120, 0, 123, 5, 48], 104, 8),
    (&[120, 0, 31, 7, 48], 105, 8),
    (&[120, 0, 44, 3, 48], 106, 8),
    (&[120, 0, 51, 4, 48], 102, 8),
    (&[120, 0, 42, 42, 42], 0, 0),
    (&[120, 0, 9, 134, 134], 0, 0),
    (&[120, 0, 128, 134, 134], 0, 0),
    (&[120, 0, 107, 128, 134], 0, 0),
    (&[120, 0, 134, 134, 134], 0, 0),
    (&[120, 0, 51, 8, 134], 0, 0),
    // A case table whose number, count or default isn't there, or whose count is below 0.
    (&[120, 0, 134, 130, -1], 101, 12),
    (&[120, 0, 134, 134, 130], 101, 16),
    (&[120, 0, 130, -1, -1], 103, 8),
    (&[120, 0, 130, 0, 8], 0, 0),
    // A table's address that is no start, though no instruction names the table.
    (&[120, 0, 130, 0, 4], 103, 8),
    (&[120, 0, 130, 1, 0, 7, 4], 103, 8),
    // A case table is named where it starts, and a cell of that number within an instruction is
    // none.
    (&[120, 0, 11, 130, 129, 12, 134], 103, 16),
    (&[120, 0, 129, 16, 130, 0, 0], 0, 0),
    // The first pass goes before the second, and each goes from address to address.
    (&[51, 4, 120, 0, 44], 101, 16),
    (&[51, 4, 134, 134, 38], 100, 16),
    (&[123, 0, 51, 4, 38], 104, 0),
    (&[134, 51, 8, 129, 0], 102, 4),
    (&[134, 129, 0, 51, 8], 103, 4),
    (&[120, 0, 129, 0, 51, 4, 134], 103, 8),
    // A way from the next address, which may lead to no place of the code, and not to its end.
    (&[120, 0, 52, -16, 134], 0, 0),
    (&[120, 0, 52, -20, 134], 102, 8),
    (&[120, 0, 52, 4, 134], 102, 8),
    (&[120, 0, 52, i32::MAX, 134], 102, 8),
    (&[120, 0, 51, 20, 134], 102, 8),
    // Operands at their edges.
    (&[120, 0, 31, 6, 134], 0, 0),
    (&[120, 0, 31, -1, 134], 105, 8),
    (&[120, 0, 32, 3, 134], 105, 8),
    (&[120, 0, 10, 3, 134], 106, 8),
    (&[120, 0, 117, -1, 134], 106, 8),
    (&[120, 0, 123, -1, 134], 104, 8),
    (&[120, 0, 123, 0, 134], 104, 8),
    (&[120, 0, 38, 31, 7], 100, 8),
];

fn codes() -> &'static [Code] {
    &CODES
}

fn code_is_judged(alloc: Global, code: &[i32], number: u8, at: i32) -> bool {
    match with_code(alloc, code) {
        Ok(bytes) => is_judged(alloc, bytes.as_slice(), number, at),
        Err(_) => false,
    }
}

#[test]
fn faults_of_code(rt: HostRuntime) {
    for (row, (code, number, at)) in codes().iter().enumerate() {
        assert!(rt; code_is_judged(rt.alloc(), *code, *number, *at), "{row}");
    }
}

/// Changes of a file with the number and the place of its first fault.
type Change = (&'static [u8], u8, i32);

/// Changes of the file of an empty main.
const MAINS: [Change; 8] = [
    (&[16, 64], 101, 0),
    (&[28, 4], 107, -1),
    (&[28, 20], 107, -1),
    (&[28, 255, 29, 255, 30, 255, 31, 255], 0, 0),
    (&[28, 254, 29, 255, 30, 255, 31, 255], 107, -1),
    // The code goes before main.
    (&[28, 4, 60, 38], 100, 0),
    // No cell of code: main is none, or leads to no start.
    (&[16, 60, 28, 255, 29, 255, 30, 255, 31, 255], 0, 0),
    (&[16, 60, 28, 0], 107, -1),
];

fn mains() -> &'static [Change] {
    &MAINS
}

/// Changes of the file with two natives, which make its natives publics.
const PUBLICS: [Change; 5] = [
    (&[36, 72], 0, 0),
    (&[36, 72, 56, 4], 107, 0),
    (&[36, 72, 64, 4], 107, 1),
    (&[36, 72, 56, 4, 64, 20], 107, 0),
    (&[36, 72, 56, 4, 28, 4], 107, -1),
];

fn publics() -> &'static [Change] {
    &PUBLICS
}

fn change_is_judged(alloc: Global, file: &[u8], change: &Change) -> bool {
    let (changes, number, at) = change;
    match changed(alloc, file, *changes) {
        Ok(bytes) => is_judged(alloc, bytes.as_slice(), *number, *at),
        Err(_) => false,
    }
}

#[test]
fn faults_of_main(rt: HostRuntime) {
    for (row, change) in mains().iter().enumerate() {
        assert!(rt; change_is_judged(rt.alloc(), empty_main(), change), "{row}");
    }
}

#[test]
fn faults_of_publics(rt: HostRuntime) {
    for (row, change) in publics().iter().enumerate() {
        assert!(rt;
            change_is_judged(rt.alloc(), two_natives(), change),
            "{row}"
        );
    }
}

/// The file of an empty main with bytes behind its size, which a flag allows.
fn followed(alloc: Global) -> Result<Vec<u8>, AllocError> {
    let mut bytes = changed(alloc, empty_main(), &[8, 2])?;
    bytes.extend_from_slice(&[1; 8])?;
    Ok(bytes)
}

#[test]
fn bytes_behind_the_size(rt: HostRuntime) -> Result<(), Fail> {
    let bytes = followed(rt.alloc())?;
    assert!(rt; is_judged(rt.alloc(), bytes.as_slice(), 0, 0));
    Ok(())
}

/// Where instructions start in the code of an empty main.
const STARTS: [i32; 4] = [0, 8, 12, 16];

/// Whether instructions are known to start at those addresses alone, asked with a sign and without.
fn is_marked(verified: &Verified) -> bool {
    for at in -8..40i32 {
        if verified.is_start(at) != STARTS.contains(&at) {
            return false;
        }
    }
    for at in 0..40u32 {
        if verified.starts_at(at) != STARTS.contains(&at.cast_signed()) {
            return false;
        }
    }
    true
}

/// Whether a verified file is an empty main.
fn is_kept(verified: Verified) -> bool {
    let main = verified.amx().entry;
    let amx = verified.into_amx();
    main == 8 && amx.code.as_slice() == [120, 0, 46, 89, 48].as_slice()
}

/// An empty main, verified.
fn verified_main(alloc: Global) -> Option<Verified> {
    let amx = read(alloc, empty_main()).ok()?;
    verify(alloc, amx).ok()
}

fn main_is_marked(alloc: Global) -> bool {
    match verified_main(alloc) {
        Some(verified) => is_marked(&verified) && is_kept(verified),
        None => false,
    }
}

#[test]
fn a_verified_file(rt: HostRuntime) {
    assert!(rt; main_is_marked(rt.alloc()));
}
