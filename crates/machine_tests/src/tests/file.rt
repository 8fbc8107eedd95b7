ghost use Rattle.std.specs.Prelude.{◌≡◌, IfSome, IsTrue};
ghost use Rattle.amx_machine.specs.Machine.{IsSteady, first};

use amx_machine::{Event, Machine};
use amx_ops::{Amx, Name, Record};
use amx_verify::{Verified, verify};
use pawn_base::{Bytes, Cells, List, Memory};
use std::alloc::Global;

/// A file with four cells of data, room for so many more, natives `p` and `q`, main at an address,
/// and a public at each of some. None where its code isn't valid.
pub fn file(
    alloc: Global,
    code: &[i32],
    room: u32,
    entry: i32,
    publics: &[i32],
) -> Option<Verified> {
    let amx = amx_of(alloc, code, room, entry, publics).ok()?;
    if amx.code.len() > 1_000_000 || amx.store.len() > 4 || amx.room > 1_000_000 {
        return None;
    }
    if amx.publics.len() > 1000 || amx.natives.len() > 1000 {
        return None;
    }
    verify(alloc, amx).ok()
}

fn amx_of(
    alloc: Global,
    code: &[i32],
    room: u32,
    entry: i32,
    publics: &[i32],
) -> Result<Amx, Memory> {
    Ok(Amx {
        flags: 0,
        version: 8,
        code: Cells::from_slice(alloc, code)?,
        store: Cells::from_slice(alloc, &[8, -2, 0x0403_0201, 92])?,
        room,
        entry,
        publics: records(alloc, publics)?,
        natives: records(alloc, &[0, 0])?,
        libraries: List::new(alloc),
        variables: List::new(alloc),
        tags: List::new(alloc),
    })
}

/// An entry of a table for each address.
fn records(alloc: Global, addresses: &[i32]) -> Result<List<Record>, Memory> {
    let mut records = List::new(alloc);
    for address in addresses {
        let name = Name::from_bytes(alloc, Bytes::from_slice(alloc, b"p")?)?;
        records.push(Record {
            address: *address,
            name,
        })?;
    }
    Ok(records)
}

/// A file's machine.
pub fn machine(alloc: Global, verified: Verified) -> Option<Machine>
    ensures { IfSome result (λ machine. machine ≡ first verified) }
{
    Machine::load(alloc, verified).ok()
}

/// A file's machine at its main.
pub fn started(alloc: Global, verified: Verified) -> Option<Machine>
    ensures { IfSome result (λ machine. IsSteady machine.mode) }
{
    let mut machine = machine(alloc, verified)?;
    match machine.start(-1, &[]) {
        Ok(()) => Some(machine),
        Err(_) => None,
    }
}

/// Whether so many steps and this event, which is no native, are what a bound of steps leads to.
pub fn goes_on(machine: &mut Machine, bound: u64, steps: u64, wanted: Event) -> bool
    requires { IsSteady machine.old.mode }
    ensures { IsTrue result → IsSteady machine.new.mode }
{
    let (done, event) = machine.run(bound);
    match event {
        Event::Native(_) => false,
        Event::Going | Event::Halt { .. } | Event::Error(_) => done == steps && event == wanted,
    }
}
