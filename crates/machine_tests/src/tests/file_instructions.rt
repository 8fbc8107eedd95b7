use amx_ops::{decode, encode};
use pawn_base::{Cells, Memory};
use std::alloc::Global;
use std::test::Fail;

/// Code, an address in cells, and the number, the operand and the cells of the instruction there.
const READ: [(&[i32], u32, Option<(u8, i32, u32)>); 13] = [
    (&[120, 0, 46], 0, Some((120, 0, 2))),
    (&[120, 0, 46], 2, Some((46, 0, 1))),
    (&[130, 1, 40, 7, 48], 0, Some((130, 1, 5))),
    (&[130, 2, 40, 7, 48], 0, None),
    (&[130, -1, 48], 0, None),
    (&[39], 0, None),
    (&[38, 0], 0, None),
    (&[-1, 0], 0, None),
    (&[46], 1, None),
    (&[37], 0, Some((37, 0, 1))),
    (&[128], 0, Some((128, 0, 1))),
    (&[137], 0, Some((137, 0, 1))),
    (&[138], 0, None),
];

fn is_read(code: &[i32], at: u32, wanted: Option<(u8, i32, u32)>) -> bool {
    // no row has more cells
    if code.len() > 5 {
        return false;
    }
    match decode(code, at) {
        Some(instr) => wanted == Some((instr.op, instr.operand, instr.cells)),
        None => wanted.is_none(),
    }
}

#[test]
fn instructions_are_read(rt: HostRuntime) {
    for (code, at, wanted) in READ {
        assert!(rt; is_read(code, at, wanted));
    }
}

/// What three instructions are put as.
#[tactic(auto, unfolding(amx_ops::specs::Table::row_at))]
fn put(alloc: Global) -> Result<Cells, Memory> {
    let mut out = Cells::new(alloc);
    encode(39, 7, &mut out)?;
    encode(46, 0, &mut out)?;
    encode(137, 0, &mut out)?;
    Ok(out)
}

#[test]
fn instructions_are_put(rt: HostRuntime) -> Result<(), Fail> {
    let cells = put(rt.alloc())?;
    assert!(rt; cells.as_slice() == [39, 7, 46, 137].as_slice());
    Ok(())
}
