use gen_module::{first_cells, object_addresses};
use pawn_base::{Bytes, Cells, List};
use pawn_meaning::{Automaton, Object, Program, Shape};
use std::alloc::Global;
use std::process::Abort;
use std::test::Fail;

/// Two rows of three cells, and behind them a single cell.
fn objects(alloc: Global) -> Result<List<Object>, Fail> {
    let rows = Shape {
        first: 2,
        second: Some(3),
        third: None,
    };
    let single = Shape {
        first: 1,
        second: None,
        third: None,
    };
    let mut all = List::new(alloc);
    all.push(Object {
        shape: rows,
        constant: false,
        first: Cells::from_slice(alloc, &[1, 2, 3, 4, 5, 6])?,
    })?;
    all.push(Object {
        shape: single,
        constant: false,
        first: Cells::from_slice(alloc, &[-7])?,
    })?;
    Ok(all)
}

/// A program with these objects and an automaton.
fn with_objects(alloc: Global) -> Result<Program, Fail> {
    let mut automata = List::new(alloc);
    automata.push(Automaton {
        name: Bytes::from_slice(alloc, b"light")?,
        states: List::new(alloc),
        enter: None,
    })?;
    Ok(Program {
        objects: objects(alloc)?,
        functions: List::new(alloc),
        natives: List::new(alloc),
        automata,
        tags: List::new(alloc),
        publics: List::new(alloc),
        entry: None,
        dynamic: 0,
    })
}

#[test]
fn objects_stand_one_behind_another(rt: HostRuntime) -> Result<(), Fail> {
    let program = with_objects(rt.alloc())?;
    let places = object_addresses(rt.alloc(), &program)?;
    assert_eq!(rt; places.objects.as_slice(), [0, 32].as_slice());
    assert_eq!(rt; places.cells, 9);
    Ok(())
}

#[test]
fn rows_have_offsets(rt: HostRuntime) -> Result<(), Fail> {
    let program = with_objects(rt.alloc())?;
    let cells = first_cells(rt.alloc(), &program)?;
    assert_eq!(rt;
        cells.as_slice(),
        [8, 16, 1, 2, 3, 4, 5, 6, -7, 0].as_slice()
    );
    Ok(())
}
