use super::bytes::{put_word, saved, set_to, word};
use super::files::{end_of, sleep_of, started, verified};
use amx_image::ImageBuffer;
use amx_machine::Machine;
use amx_verify::Verified;
use std::alloc::Global;

/// HALT 0, HALT 12, RETN: it sleeps at once, and then finds nothing on its stack.
pub const SLEEPER: [i32; 5] = [120, 0, 120, 12, 48];

/// The image of its sleep at a position of the script.
pub fn image(alloc: Global, verified: Verified, position: u32) -> Option<ImageBuffer> {
    let mut machine = started(alloc, verified)?;
    sleep_of(&mut machine)?;
    saved(alloc, &machine, position)
}

/// The bytes of an image.
fn live(alloc: Global, image: &[u8]) -> Option<Vec<u8>> {
    let mut made = Vec::new(alloc);
    made.extend_from_slice(image).ok()?;
    Some(made)
}

/// The bytes of version 1 of what an image holds.
fn whole(alloc: Global, image: &[u8]) -> Option<Vec<u8>> {
    let (hea, stk) = (word(image, 64) as usize, word(image, 60) as usize);
    let mut made = live(alloc, image)?;
    put_word(made.as_mut_slice(), 4, 1);
    made.truncate(72 + hea);
    for _ in hea..stk {
        made.push(0).ok()?;
    }
    made.extend_from_slice(image.get(72 + hea..)?).ok()?;
    Some(made)
}

/// The sleeper, verified.
pub fn sleeper(alloc: Global) -> Option<Verified> {
    verified(alloc, &SLEEPER, &[], 4096)
}

/// The bytes of its image at a position of the script, of version 1 or 2.
pub fn image_bytes(
    alloc: Global,
    verified: Verified,
    position: u32,
    in_whole: bool,
) -> Option<Vec<u8>> {
    let image = image(alloc, verified, position)?;
    if in_whole {
        whole(alloc, image.bytes())
    } else {
        live(alloc, image.bytes())
    }
}

/// The words of an image from byte 40 on.
fn fields(bytes: &[u8]) -> [u32; 8] {
    [
        word(bytes, 40),
        word(bytes, 44),
        word(bytes, 48),
        word(bytes, 52),
        word(bytes, 56),
        word(bytes, 60),
        word(bytes, 64),
        word(bytes, 68),
    ]
}

/// Whether the sleeper's image has 80 bytes with these words from byte 40 on.
fn holds(alloc: Global, words: [u32; 8]) -> Option<bool> {
    let image = image(alloc, sleeper(alloc)?, 9)?;
    Some(image.bytes().len() == 80 && fields(image.bytes()) == words)
}

#[test]
fn image_of_the_live_cells(rt: HostRuntime) {
    assert!(rt; holds(rt.alloc(), [9, 0, 0, 0, 16, 16376, 0, 4096]) == Some(true));
}

/// How many bytes the sleeper's image has in version 2 or 1, and how two machines go on that are
/// set to it.
fn goes_on(alloc: Global, in_whole: bool) -> Option<(usize, i32, i32)> {
    let bytes = image_bytes(alloc, sleeper(alloc)?, 5, in_whole)?;
    let first = end_from(alloc, sleeper(alloc)?, bytes.as_slice())?;
    let second = end_from(alloc, sleeper(alloc)?, bytes.as_slice())?;
    Some((bytes.len(), first, second))
}

/// How a machine goes on from an image.
pub fn end_from(alloc: Global, verified: Verified, bytes: &[u8]) -> Option<i32> {
    let mut machine = Machine::load(alloc, verified).ok()?;
    set_to(&mut machine, bytes)?;
    Some(end_of(&mut machine))
}

#[test]
fn live_image_goes_on(rt: HostRuntime) {
    assert!(rt; goes_on(rt.alloc(), false) == Some((80, -1007, -1007)));
}

#[test]
fn whole_image_goes_on(rt: HostRuntime) {
    assert!(rt; goes_on(rt.alloc(), true) == Some((16456, -1007, -1007)));
}
