ghost use Rattle.std.specs.Prelude.{◌≡◌, length};
ghost use Rattle.host_embed.specs.Names.{number_named};
ghost use Rattle.sulkhen_c.specs.Named.{NumbersFor, NamesFor};

use super::border::{copy_front, tell_number};
use host_embed::{Refusal, Sulkhen};

/// The number of the first public with a name, or 20 where there is none.
#[unsafe(no_mangle)]
pub extern "C" fn sulkhen_public_number(handle: &mut Sulkhen, name: &[u8], out: &mut usize) -> i32
    ensures number { NumbersFor (number_named handle.old.value.machine.amx.publics name.now)
        result out.old out.new }
    ensures kept { handle.new.value ≡ handle.old.value }
{
    let number = handle.held_mut().public_number(name);
    tell_number(number, out)
}

/// How many natives the file has.
#[unsafe(no_mangle)]
pub extern "C" fn sulkhen_natives(handle: &mut Sulkhen) -> usize
    ensures count { result ≡ length handle.old.value.machine.amx.natives }
    ensures kept { handle.new.value ≡ handle.old.value }
{
    handle.held_mut().natives()
}

/// The number of the first native with a name, or 20 where there is none.
#[unsafe(no_mangle)]
pub extern "C" fn sulkhen_native_number(handle: &mut Sulkhen, name: &[u8], out: &mut usize) -> i32
    ensures number { NumbersFor (number_named handle.old.value.machine.amx.natives name.now)
        result out.old out.new }
    ensures kept { handle.new.value ≡ handle.old.value }
{
    let number = handle.held_mut().native_number(name);
    tell_number(number, out)
}

/// Copies as many bytes of a native's name as there is room for, and tells how many there are; or
/// 20 where no native has the number.
#[unsafe(no_mangle)]
pub extern "C" fn sulkhen_native_name(
    handle: &mut Sulkhen,
    number: usize,
    out: &mut [u8],
    size: &mut usize,
) -> i32
    ensures name { NamesFor handle.old.value.machine.amx.natives number result
        out.old out.new size.old size.new }
    ensures kept { handle.new.value ≡ handle.old.value }
{
    match handle.held_mut().native_name(number) {
        Some(name) => {
            copy_front(name, out);
            *size = name.len();
            0
        }
        None => Refusal::Index.code(),
    }
}
