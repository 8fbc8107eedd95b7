use pawn_base::{Memory, Names};
use std::alloc::Global;
use std::test::Fail;

/// Names that are added in this order, and whether each is new.
const ADDED: [(&str, bool); 4] = [("a", true), ("b", true), ("a", false), ("", true)];

/// Names, and their places.
const PLACES: [(&str, Option<usize>); 3] = [("c", Some(0)), ("b", Some(2)), ("d", None)];

/// Adds each name, and tells whether those that are new were told so.
fn are_added(alloc: Global, names: &mut Names) -> Result<bool, Memory> {
    for (name, is_new) in &ADDED {
        if names.add(alloc, name.as_bytes())? != *is_new {
            return Ok(false);
        }
    }
    Ok(true)
}

/// Whether each name has its place.
fn are_placed(names: &Names) -> bool {
    for (name, place) in &PLACES {
        let found = names.place(name.as_bytes());
        if found != *place || names.contains(name.as_bytes()) != found.is_some() {
            return false;
        }
    }
    names.get(2) == Some(b"b".as_slice()) && names.get(4).is_none()
}

#[test]
fn names(rt: HostRuntime) -> Result<(), Fail> {
    let mut names = Names::new(rt.alloc());
    names.push(rt.alloc(), b"c")?;
    let are_held = are_added(rt.alloc(), &mut names)? && names.len() == 4 && are_placed(&names);
    let list = names.into_list(rt.alloc())?;
    assert!(rt; are_held && list.len() == 4);
    Ok(())
}
