ghost use Rattle.std.specs.Prelude.{◌≡◌};
ghost use Rattle.host_embed.specs.Turns.{IsWaiting, answered, failed, parked};
ghost use Rattle.sulkhen_c.specs.Shows.{TurnsFor};
ghost use Rattle.sulkhen_c.specs.Sees.{ArguesFor, CountsFor};

use host_embed::{Sulkhen, code_of};

/// How many arguments the native has that is waited for.
#[unsafe(no_mangle)]
pub extern "C" fn sulkhen_arguments(handle: &mut Sulkhen, out: &mut u32) -> i32
    ensures { CountsFor handle.old.value result out.old out.new handle.new.value }
{
    match handle.held_mut().arguments() {
        Ok(count) => {
            *out = count;
            0
        }
        Err(refusal) => refusal.code(),
    }
}

/// One of its arguments, from 0 on.
#[unsafe(no_mangle)]
pub extern "C" fn sulkhen_argument(handle: &mut Sulkhen, index: u32, out: &mut i32) -> i32
    ensures { ArguesFor handle.old.value index result out.old out.new handle.new.value }
{
    match handle.held_mut().argument(index) {
        Ok(cell) => {
            *out = cell;
            0
        }
        Err(refusal) => refusal.code(),
    }
}

/// The answer of the native that is waited for.
#[unsafe(no_mangle)]
pub extern "C" fn sulkhen_answer(handle: &mut Sulkhen, value: i32) -> i32
    ensures { let m = handle.old.value.machine in
        TurnsFor (IsWaiting m) (answered value m) handle.old.value result handle.new.value }
{
    code_of(handle.held_mut().answer(value))
}

/// An error in its place, which ends the machine.
#[unsafe(no_mangle)]
pub extern "C" fn sulkhen_fail(handle: &mut Sulkhen, code: i32) -> i32
    ensures { let m = handle.old.value.machine in
        TurnsFor (IsWaiting m) (failed code m) handle.old.value result handle.new.value }
{
    code_of(handle.held_mut().fail(code))
}

/// Its answer, and a sleep there.
#[unsafe(no_mangle)]
pub extern "C" fn sulkhen_park(handle: &mut Sulkhen, value: i32) -> i32
    ensures { let m = handle.old.value.machine in
        TurnsFor (IsWaiting m) (parked value m) handle.old.value result handle.new.value }
{
    code_of(handle.held_mut().park(value))
}
