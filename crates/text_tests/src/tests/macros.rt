use super::shown_lines::same;
use pawn_base::Memory;
use pawn_pre::{Refusal, Table, read_definition, undefined};
use std::alloc::Global;
use std::test::Fail;

/// Definitions: pattern and text behind `#define`.
const DEFINITIONS: [&[u8]; 4] = [
    b" MAX(%1,%2) ((%1) > (%2) ? (%1) : (%2)) ",
    b"ONE 1",
    b"LOOP LOOP",
    b"A.B '%1'",
];

/// The table of these definitions. One that can't be read isn't in it.
fn table(alloc: Global) -> Result<Table, Memory> {
    let mut table = Table::new(alloc);
    for rest in &DEFINITIONS {
        if let Some(definition) = read_definition(alloc, b'\\', *rest)? {
            let key = Vec::from_slice(alloc, definition.key.as_slice())?;
            table.insert(key, definition.rule)?;
        }
    }
    Ok(table)
}

/// Whether a definition is found until it is removed.
fn are_removed(alloc: Global) -> Result<bool, Memory> {
    let mut table = table(alloc)?;
    let was_held = table.find(b"ONE").is_some();
    table.remove(b"ONE");
    Ok(was_held && table.find(b"ONE").is_none())
}

#[test]
fn definitions(rt: HostRuntime) -> Result<(), Fail> {
    let is_none = read_definition(rt.alloc(), b'\\', b" (A) x")?.is_none();
    let is_one = undefined(b" ONE(%1)") == Some(b"ONE".as_slice());
    assert!(rt; is_none && is_one && are_removed(rt.alloc())?);
    Ok(())
}

/// Whether a line under the definitions comes to this.
fn is_expanded(table: &Table, alloc: Global, line: &[u8], want: &[u8]) -> bool {
    match table.expanded(alloc, b'\\', line) {
        Ok(got) => same(got.as_slice(), want),
        Err(_) => false,
    }
}

#[test]
fn lines(rt: HostRuntime) -> Result<(), Fail> {
    let table = table(rt.alloc())?;
    let line = b"MAX( ONE , (a, b)) A.BONE \"ONE\"";
    let want = b"((1) > ((a, b)) ? (1) : ((a, b))) '%1'1 \"ONE\"";
    let long = table.expanded(rt.alloc(), b'\\', b"LOOP").err();
    let is_long = long == Some(Refusal::Fault(7));
    assert!(rt; is_long && is_expanded(&table, rt.alloc(), line, want));
    Ok(())
}

#[test]
fn conditions(rt: HostRuntime) -> Result<(), Fail> {
    let table = table(rt.alloc())?;
    let value = table.condition(rt.alloc(), b'\\', b"defined ONE + ONE + defined(TWO)");
    let number = table.number(rt.alloc(), b'\\', b"defined ONE");
    assert!(rt; value == Ok(2) && number == Err(Refusal::Fault(11)));
    Ok(())
}
