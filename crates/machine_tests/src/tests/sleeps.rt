use super::bytes::{saved, set_to};
use super::files::{sleep_of, verified};
use super::saved::{end_from, image};
use amx_image::ImageBuffer;
use amx_machine::Machine;
use amx_verify::Verified;
use std::alloc::Global;

/// It counts in its data, keeps each count on the heap and on the stack, and sleeps with it four
/// times; then it adds the counts on the stack and multiplies by the third one on the heap.
const COUNTER: [i32; 30] = [
    120, 0, 46, 109, 0, 45, 4, 1, 0, 23, 36, 120, 12, 1, 0, 105, 4, 53, 12, 42, 43, 78, 43, 78, 43,
    78, 2, 12, 72, 48,
];

/// The counter, verified.
fn counter(alloc: Global) -> Option<Verified> {
    verified(alloc, &COUNTER, &[0], 64)
}

/// The image of the next sleep of a machine that is set to one, where the image is of the position
/// before and the counter sleeps with the count that is the position.
fn next_image(alloc: Global, bytes: &[u8], position: u32) -> Option<ImageBuffer> {
    let mut machine = Machine::load(alloc, counter(alloc)?).ok()?;
    let before = set_to(&mut machine, bytes)?;
    let count = sleep_of(&mut machine)?;
    if before.wrapping_add(1) == position && count.cast_unsigned() == position {
        saved(alloc, &machine, position)
    } else {
        None
    }
}

/// The image of the fourth sleep, where each was on a machine of its own.
fn fourth_image(alloc: Global) -> Option<ImageBuffer> {
    let mut last = image(alloc, counter(alloc)?, 1)?;
    for position in 2..5u32 {
        last = next_image(alloc, last.bytes(), position)?;
    }
    Some(last)
}

/// How a fifth machine ends.
fn counted(alloc: Global) -> Option<i32> {
    let image = fourth_image(alloc)?;
    end_from(alloc, counter(alloc)?, image.bytes())
}

#[test]
fn four_sleeps_on_five_machines(rt: HostRuntime) {
    assert!(rt; counted(rt.alloc()) == Some(30));
}

/// It puts 77 into a million cells of its stack and sleeps, then takes the last of them.
const FILLER: [i32; 18] = [
    120, 0, 46, 44, -4_000_000, 31, 4, 34, 11, 77, 119, 4_000_000, 120, 12, 42, 44, 3_999_996, 48,
];

/// The filler, verified.
fn filler(alloc: Global) -> Option<Verified> {
    verified(alloc, &FILLER, &[], 1_000_100)
}

/// Bytes of the filler's image, and its end on another machine.
fn filled(alloc: Global) -> Option<(usize, i32)> {
    let image = image(alloc, filler(alloc)?, 1)?;
    let end = end_from(alloc, filler(alloc)?, image.bytes())?;
    Some((image.bytes().len(), end))
}

#[test]
fn million_cells(rt: HostRuntime) {
    assert!(rt; filled(rt.alloc()) == Some((4_000_084, 77)));
}
