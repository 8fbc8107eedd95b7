ghost use Rattle.std.specs.Prelude.{◌≡◌, ◌++◌, drop, length, take};
ghost use Rattle.sulkhen_c.specs.Saved.{RestoresFor, SavesFor};

use super::border::copy_front;
use host_embed::{Sulkhen, code_of};

/// Makes the image of a machine at a sleep, with a number that its host keeps there.
#[unsafe(no_mangle)]
pub extern "C" fn sulkhen_save(handle: &mut Sulkhen, position: u32) -> i32
    ensures { SavesFor handle.old.value position result handle.new.value }
{
    code_of(handle.held_mut().save(position))
}

/// Copies as many bytes of the image that was saved last as there is room for, and tells how many
/// there are: none before the first.
#[unsafe(no_mangle)]
pub extern "C" fn sulkhen_image(handle: &mut Sulkhen, out: &mut [u8]) -> usize
    ensures count { result ≡ length handle.old.value.image }
    ensures bytes { let image = handle.old.value.image in
        out.new ≡ take (length out.old) image ++ drop (length image) out.old }
    ensures kept { handle.new.value ≡ handle.old.value }
{
    let image = handle.held_mut().image();
    copy_front(image, out);
    image.len()
}

/// Sets the machine to the state of an image of its file, at a sleep, and tells the number that was
/// kept there.
#[unsafe(no_mangle)]
pub extern "C" fn sulkhen_restore(handle: &mut Sulkhen, image: &[u8], out: &mut u32) -> i32
    ensures { RestoresFor handle.old.value image.now result out.old out.new handle.new.value }
{
    match handle.held_mut().restore(image) {
        Ok(position) => {
            *out = position;
            0
        }
        Err(refusal) => refusal.code(),
    }
}
