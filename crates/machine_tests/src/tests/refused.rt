use super::bytes::{answer, put_word};
use super::saved::{image_bytes, sleeper};
use std::alloc::Global;

/// In version 1 or 2, a number in the place of four bytes, and the answer: below 0, ten times the
/// number of the refusal, and the register's number more.
const CHANGES: [(bool, u32, u32, i64); 17] = [
    (true, 0, 0x494E_5750, 3),
    (false, 0, 0x494E_5750, 3),
    (true, 0, 0x494E_5751, -1210),
    (false, 4, 3, -1220),
    (true, 4, 0x0001_0001, -1220),
    (true, 4, 0, -1220),
    (true, 8, 0x0707_0706, -1230),
    (false, 36, 0x0607_0707, -1230),
    (true, 68, 4097, -1240),
    (true, 64, 2, -1255),
    (true, 64, 0x8000_0000, -1255),
    (true, 60, 16388, -1254),
    (false, 60, 16372, -1270),
    (true, 56, 4, -1253),
    (true, 72, 1, -1260),
    (false, 64, 16380, -1254),
    (false, 68, 4095, -1240),
];

/// What is answered to the sleeper's image with a change.
fn changed(alloc: Global, in_whole: bool, place: u32, number: u32) -> Option<i64> {
    let mut bytes = image_bytes(alloc, sleeper(alloc)?, 3, in_whole)?;
    put_word(bytes.as_mut_slice(), place, number);
    Some(answer(alloc, sleeper(alloc)?, bytes.as_slice()))
}

#[test]
fn changes_of_an_image(rt: HostRuntime) {
    for (in_whole, place, number, wanted) in CHANGES {
        let found = changed(rt.alloc(), in_whole, place, number);
        assert!(rt; found == Some(wanted), "{place} {number}");
    }
}

/// In version 1 or 2, how many bytes are left, and the answer.
const LENGTHS: [(bool, usize, i64); 8] = [
    (false, 0, -1200),
    (false, 71, -1200),
    (false, 72, -1270),
    (false, 79, -1270),
    (false, 80, 3),
    (false, 81, -1270),
    (true, 16455, -1240),
    (true, 16457, -1240),
];

/// What is answered to the sleeper's image cut to a length, or with a byte behind it.
fn cut(alloc: Global, in_whole: bool, length: usize) -> Option<i64> {
    let mut bytes = image_bytes(alloc, sleeper(alloc)?, 3, in_whole)?;
    bytes.push(0).ok()?;
    bytes.truncate(length);
    Some(answer(alloc, sleeper(alloc)?, bytes.as_slice()))
}

#[test]
fn lengths_of_an_image(rt: HostRuntime) {
    for (in_whole, length, wanted) in LENGTHS {
        let found = cut(rt.alloc(), in_whole, length);
        assert!(rt; found == Some(wanted), "{length}");
    }
}
