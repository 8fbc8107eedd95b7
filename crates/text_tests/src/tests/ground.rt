use pawn_base::{Bytes, Cells, List, Memory};
use std::alloc::Global;
use std::test::Fail;

/// Whether bytes hold what is put behind them, and copies hold the same.
fn bytes_hold(alloc: Global) -> Result<bool, Memory> {
    let mut bytes = Bytes::new(alloc);
    let was_empty = bytes.is_empty();
    bytes.push(65)?;
    bytes.append(b"MX")?;
    let copy = Bytes::from_slice(alloc, bytes.as_slice())?;
    Ok(was_empty && copy.as_slice() == b"AMX".as_slice() && copy.len() == 3)
}

#[test]
fn bytes_grow(rt: HostRuntime) -> Result<(), Fail> {
    let known = Bytes::from_vec(vec![in rt.alloc(); 1, 2]?);
    assert!(rt; known.as_slice() == [1, 2].as_slice() && bytes_hold(rt.alloc())?);
    Ok(())
}

/// Whether cells hold what is put behind them and in the place of one.
fn cells_hold(alloc: Global) -> Result<bool, Memory> {
    let mut cells = Cells::new(alloc);
    let was_empty = cells.is_empty();
    cells.push(i32::MIN)?;
    let more = Cells::from_slice(alloc, &[0, -1, i32::MAX])?;
    cells.append(&more)?;
    cells.set(2, 7);
    let now = [i32::MIN, 0, 7, i32::MAX];
    Ok(was_empty && cells.as_slice() == now.as_slice() && cells.len() == 4)
}

#[test]
fn cells_grow(rt: HostRuntime) -> Result<(), Fail> {
    assert!(rt; cells_hold(rt.alloc())?);
    Ok(())
}

/// A tree that contains itself through `List`.
#[derive(Drop)]
struct Tree {
    leaf: u32,
    children: List<Tree>,
}

/// The leaves of a tree, a parent's before its children's.
fn leaves(tree: &Tree, found: &mut List<u32>) -> Result<(), Memory> {
    found.push(tree.leaf)?;
    for child in tree.children.as_slice() {
        leaves(child, found)?;
    }
    Ok(())
}

/// A tree with two children.
fn small_tree(alloc: Global) -> Result<Tree, Memory> {
    let mut children = List::new(alloc);
    for leaf in 2..4 {
        children.push(Tree {
            leaf,
            children: List::new(alloc),
        })?;
    }
    Ok(Tree { leaf: 1, children })
}

#[test]
fn a_type_contains_itself_through_a_list(rt: HostRuntime) -> Result<(), Fail> {
    let tree = small_tree(rt.alloc())?;
    let mut found = List::from_vec(vec![in rt.alloc(); 0]?);
    leaves(&tree, &mut found)?;
    let mut more = List::new(rt.alloc());
    let was_empty = more.is_empty();
    more.push(4)?;
    found.append(more)?;
    let all = [0, 1, 2, 3, 4];
    assert!(rt; was_empty && tree.children.len() == 2 && found.as_slice() == all.as_slice());
    Ok(())
}
