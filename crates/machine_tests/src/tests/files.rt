ghost use Rattle.std.specs.Prelude.{◌≡◌, ◌+◌, ◌^◌, ◌<◌, ◌≤◌, IfOk, IfSome, IsSome, length};
ghost use Rattle.amx_machine.specs.declared.mode.Mode.TheVariants as mode;
ghost use Rattle.host_run.specs.Stands.{IsAwake};
ghost use Rattle.amx_ops.specs.Writable.{cells_limit};

use amx_machine::{Event, Machine};
use amx_ops::Amx;
use amx_verify::{Verified, verify};
use pawn_base::{Cells, List, Memory};
use std::alloc::Global;

/// A file with main at address 8.
fn file(alloc: Global, code: &[i32], store: &[i32], room: u32) -> Result<Amx, Memory>
    requires { (length code.now ≤ 100) × (length store.now ≤ 100) × (room ≤ 4000000) }
    ensures memory { IfOk result (λ amx.
        length amx.code + length amx.store + amx.room ≤ cells_limit) }
    ensures publics { IfOk result (λ amx. length amx.publics < 2 ^ 31) }
    ensures natives { IfOk result (λ amx. length amx.natives < 2 ^ 31) }
{
    Ok(Amx {
        flags: 0,
        version: 8,
        code: Cells::from_slice(alloc, code)?,
        store: Cells::from_slice(alloc, store)?,
        room,
        entry: 8,
        publics: List::new(alloc),
        natives: List::new(alloc),
        libraries: List::new(alloc),
        variables: List::new(alloc),
        tags: List::new(alloc),
    })
}

/// The same, verified.
pub fn verified(alloc: Global, code: &[i32], store: &[i32], room: u32) -> Option<Verified>
    requires { (length code.now ≤ 100) × (length store.now ≤ 100) × (room ≤ 4000000) }
{
    let Ok(amx) = file(alloc, code, store, room) else {
        return None;
    };
    match verify(alloc, amx) {
        Ok(verified) => Some(verified),
        Err(_) => None,
    }
}

/// Its machine, started at main.
pub fn started(alloc: Global, verified: Verified) -> Option<Machine>
    ensures { IfSome result (λ machine. machine.mode ≡ mode.Running) }
{
    let Ok(mut machine) = Machine::load(alloc, verified) else {
        return None;
    };
    match machine.start(-1, &[]) {
        Ok(()) => Some(machine),
        Err(_) => None,
    }
}

/// Runs a machine up to its sleep, and tells its value; none where it comes to something else.
#[tactic(auto, using(crate::proofs::UpLaws::up_is_steady))]
pub fn sleep_of(machine: &mut Machine) -> Option<i32>
    requires { IsAwake machine.old.mode }
    ensures { IsSome result → machine.new.mode ≡ mode.Asleep }
{
    let (_, event) = machine.run(1_000_000);
    match event {
        Event::Halt {
            code: 12,
            pri,
            alt: _,
        } => Some(pri),
        _ => None,
    }
}

/// Runs a machine up to its end: the value of HALT 0, or less than -1000 by the error, or -1000.
#[tactic(auto, using(crate::proofs::UpLaws::up_is_steady))]
pub fn end_of(machine: &mut Machine) -> i32
    requires { IsAwake machine.old.mode }
{
    let (_, event) = machine.run(1_000_000);
    match event {
        Event::Halt {
            code: 0,
            pri,
            alt: _,
        } => pri,
        Event::Error(code) => (-1000i32).wrapping_sub(code),
        _ => -1000,
    }
}
