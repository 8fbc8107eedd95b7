ghost use Rattle.std.specs.Prelude.{◌≡◌};
ghost use Rattle.host_embed.specs.Modes as modes;
ghost use Rattle.sulkhen_c.specs.Loads.{LoadsFor};
ghost use Rattle.sulkhen_c.specs.Shows.{RunsFor, StartsFor};

use host_embed::{Sulkhen, SulkhenEvent, SulkhenSlot, code_of};
use std::alloc::Global;

/// Puts a handle at `slot` that owns the machine of the valid file that bytes are, in its first
/// state. The bytes aren't kept. Else it is the number of their first fault: 80 to 97 of bytes that
/// are no file, 100 to 107 of a file that isn't valid, with its place; 15 for want of memory.
#[unsafe(no_mangle)]
pub extern "C" fn sulkhen_load(
    alloc: Global,
    bytes: &[u8],
    slot: &mut SulkhenSlot,
    place: &mut i64,
) -> i32
    ensures { LoadsFor bytes.now slot.old.value result slot.new.value place.old place.new }
{
    match slot.load(alloc, bytes) {
        Ok(()) => 0,
        Err(fault) => {
            *place = fault.place();
            fault.code()
        }
    }
}

/// Frees a machine with its handle.
#[unsafe(no_mangle)]
pub extern "C" fn sulkhen_free(handle: Sulkhen) {
    let _held = handle.into_held();
}

/// The mode: 0 loaded, 1 running, 2 at a sleep, 3 it waits for a native, 4 ended by a halt, 5 by an
/// error.
#[unsafe(no_mangle)]
pub extern "C" fn sulkhen_mode(handle: &mut Sulkhen) -> i32
    ensures mode { result ≡ modes.number_of handle.old.value.machine.mode }
    ensures kept { handle.new.value ≡ handle.old.value }
{
    handle.held_mut().mode_number()
}

/// Starts a machine that was loaded or is done, at main, as -1, or at a public. The cells are its
/// arguments, and behind them what it reaches by its address.
#[unsafe(no_mangle)]
pub extern "C" fn sulkhen_start(handle: &mut Sulkhen, entry: i32, cells: &[i32]) -> i32
    ensures { StartsFor handle.old.value entry cells.now result handle.new.value }
{
    code_of(handle.held_mut().start(entry, cells))
}

/// Does so many steps, up to the first event other than going on.
#[unsafe(no_mangle)]
pub extern "C" fn sulkhen_run(handle: &mut Sulkhen, steps: u64, out: &mut SulkhenEvent) -> i32
    ensures { RunsFor handle.old.value steps result out.old out.new handle.new.value }
{
    match handle.held_mut().run(steps) {
        Ok((done, event)) => {
            *out = SulkhenEvent::new(done, event);
            0
        }
        Err(refusal) => refusal.code(),
    }
}
