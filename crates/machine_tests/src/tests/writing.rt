ghost use Rattle.std.specs.Prelude.{◌≡◌, ◌≤◌, ◌≢◌, ◌∷◌, [], All, IfOk, length};
ghost use Rattle.amx_ops.specs.declared.amx.Record.{Record};
ghost use Rattle.amx_format.specs.Sorts.{IsWritableSorted};

use super::base::{every_compact, every_table};
use amx_format::{Encoding, write};
use amx_ops::{Amx, Name, Record};
use pawn_base::{Bytes, Cells, List, Memory};
use std::alloc::Global;
use std::test::Fail;

fn record(alloc: Global, address: i32, name: &[u8]) -> Result<Record, Memory>
    ensures { IfOk result (λ it. it.name ≡ name.now) }
{
    let bytes = Bytes::from_slice(alloc, name)?;
    let name = Name::from_bytes(alloc, bytes)?;
    Ok(Record { address, name })
}

/// A table with one record.
fn table(alloc: Global, address: i32, name: &[u8]) -> Result<List<Record>, Memory>
    ensures { IfOk result (λ table. (it : Record) × (table ≡ it ∷ []) × (it.name ≡ name.now)) }
{
    let mut table = List::new(alloc);
    table.push(record(alloc, address, name)?)?;
    Ok(table)
}

/// Three publics that aren't in the order of their names, two of one name.
fn publics(alloc: Global) -> Result<List<Record>, Memory>
    ensures { IfOk result (λ table. (a : Record) × (b : Record) × (c : Record)
        × (table ≡ a ∷ b ∷ c ∷ []) × (a.name ≡ 98 ∷ []) × (b.name ≡ 97 ∷ []) × (c.name ≡ 98 ∷ [])) }
{
    let mut table = List::new(alloc);
    table.push(record(alloc, 8, b"b")?)?;
    table.push(record(alloc, 0, b"a")?)?;
    table.push(record(alloc, 4, b"b")?)?;
    Ok(table)
}

/// The file with records in each table.
fn amx(alloc: Global) -> Result<Amx, Memory>
    ensures { IfOk result IsWritableSorted }
{
    let code = Cells::from_slice(alloc, &[120, 0, 130, 1, 8, -7, 0])?;
    let store = Cells::from_slice(alloc, &[-1, 0, i32::MAX, i32::MIN, 5, 6, 7, 8, 9])?;
    let publics = publics(alloc)?;
    let natives = table(alloc, 5, b"\"")?;
    let libraries = table(alloc, -2, b"")?;
    let variables = table(alloc, 12, b"\\")?;
    let tags = table(alloc, 7, &[200])?;
    Ok(Amx {
        flags: 0x8079,
        version: 1,
        code,
        store,
        room: 4,
        entry: -1,
        publics,
        natives,
        libraries,
        variables,
        tags,
    })
}

/// Whether it is written as these bytes.
fn is_written(alloc: Global, encoding: Encoding, bytes: &[u8]) -> bool {
    match amx(alloc) {
        Ok(amx) => writes_as(alloc, &amx, encoding, bytes),
        Err(_) => false,
    }
}

pub fn writes_as(alloc: Global, amx: &Amx, encoding: Encoding, bytes: &[u8]) -> bool
    requires { IsWritableSorted amx.now }
{
    match write(alloc, amx, encoding) {
        Ok(written) => written.as_slice() == bytes,
        Err(_) => false,
    }
}

/// The bytes that are written are read back, since their listings are compared.
#[test]
fn both_encodings(rt: HostRuntime) -> Result<(), Fail> {
    let compact = every_compact(rt.alloc())?;
    let is_compact = is_written(rt.alloc(), Encoding::Compact, compact.as_slice());
    assert!(rt; is_compact && is_written(rt.alloc(), Encoding::Plain, every_table()));
    Ok(())
}
