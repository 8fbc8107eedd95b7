ghost use Rattle.std.specs.Prelude.{◌≡◌, IsSome};
ghost use Rattle.amx_machine.specs.declared.mode.Mode.TheVariants as mode;

use amx_image::{ImageBuffer, ImageFault, restore_into, save_into};
use amx_machine::Machine;
use amx_verify::Verified;
use std::alloc::Global;

/// The digest that the images of these tests are for.
pub const DIGEST: [u8; 32] = [7; 32];

/// The number of four bytes, the lowest first; 0 where they aren't there.
pub fn word(bytes: &[u8], place: u32) -> u32 {
    let at = place as usize;
    if at < bytes.len() && bytes.len() - at >= 4 {
        u32::from_le_bytes([bytes[at], bytes[at + 1], bytes[at + 2], bytes[at + 3]])
    } else {
        0
    }
}

/// Puts a number in the place of four bytes.
pub fn put_word(bytes: &mut [u8], place: u32, number: u32) {
    let parts = number.to_le_bytes();
    let at = place as usize;
    for index in 0..4usize {
        if at + index < bytes.len() {
            bytes[at + index] = parts[index];
        }
    }
}

/// What a machine of the file answers to bytes: the position, or the number of the refusal and 10
/// times more, with the register's number added, below 0.
pub fn answer(alloc: Global, verified: Verified, bytes: &[u8]) -> i64 {
    let Ok(mut machine) = Machine::load(alloc, verified) else {
        return -1;
    };
    match restore_into(&mut machine, &DIGEST, bytes) {
        Ok(position) => i64::from(position),
        Err(ImageFault::Register(number)) => -1250 - i64::from(number),
        Err(fault) => -10 * i64::from(fault.number()),
    }
}

/// The image of a machine at a sleep, at a position of the script.
pub fn saved(alloc: Global, machine: &Machine, position: u32) -> Option<ImageBuffer>
    requires { machine.now.mode ≡ mode.Asleep }
{
    match ImageBuffer::new(alloc, machine) {
        Ok(mut buffer) => {
            save_into(machine, position, &DIGEST, &mut buffer);
            Some(buffer)
        }
        Err(_) => None,
    }
}

/// Sets a machine to an image, and tells the position; none where it is refused.
pub fn set_to(machine: &mut Machine, bytes: &[u8]) -> Option<u32>
    ensures { IsSome result → machine.new.mode ≡ mode.Asleep }
{
    match restore_into(machine, &DIGEST, bytes) {
        Ok(position) => Some(position),
        Err(_) => None,
    }
}
