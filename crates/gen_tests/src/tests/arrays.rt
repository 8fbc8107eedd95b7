use pawn_arrays::{Shape, cells, inner_row, layout, row};
use std::test::Fail;

/// An array of one dimension.
fn line(first: u32) -> Shape {
    Shape {
        first,
        second: None,
        third: None,
    }
}

/// An array of rows.
fn rows(first: u32, second: u32) -> Shape {
    Shape {
        first,
        second: Some(second),
        third: None,
    }
}

/// An array of planes of rows.
fn planes(first: u32, second: u32, third: u32) -> Shape {
    Shape {
        first,
        second: Some(second),
        third: Some(third),
    }
}

#[test]
fn cells_of_shapes(rt: HostRuntime) {
    for (shape, wanted) in [
        (line(0), Some(0)),
        (line(1_048_576), Some(1_048_576)),
        (line(1_048_577), None),
        (rows(2, 3), Some(8)),
        (rows(0, u32::MAX), Some(0)),
        (rows(1024, 1023), Some(1_048_576)),
        (rows(1024, 1024), None),
        (rows(u32::MAX, u32::MAX), None),
        (planes(2, 2, 3), Some(18)),
        (planes(1, 1, 1_048_574), Some(1_048_576)),
        (planes(1, 1, 1_048_575), None),
        (planes(u32::MAX, u32::MAX, u32::MAX), None),
    ] {
        assert_eq!(rt; cells(&shape), wanted);
    }
}

#[test]
fn an_array_of_one_dimension(rt: HostRuntime) -> Result<(), Fail> {
    let three_cells = Shape {
        first: 3,
        second: None,
        third: None,
    };
    assert!(rt; layout(rt.alloc(), &three_cells)?.is_empty());
    Ok(())
}

#[test]
fn two_rows_of_three(rt: HostRuntime) -> Result<(), Fail> {
    let two_rows = Shape {
        first: 2,
        second: Some(3),
        third: None,
    };
    let offsets = layout(rt.alloc(), &two_rows)?;
    assert_eq!(rt; offsets.as_slice(), [8, 16].as_slice());
    assert_eq!(rt; row(&two_rows, 0), 8);
    assert_eq!(rt; row(&two_rows, 1), 20);
    Ok(())
}

#[test]
fn two_planes(rt: HostRuntime) -> Result<(), Fail> {
    let two_planes = Shape {
        first: 2,
        second: Some(2),
        third: Some(3),
    };
    let offsets = layout(rt.alloc(), &two_planes)?;
    assert_eq!(rt; offsets.as_slice(), [8, 12, 16, 24, 32, 40].as_slice());
    assert_eq!(rt; row(&two_planes, 1), 16);
    assert_eq!(rt; inner_row(&two_planes, 0, 1), 36);
    assert_eq!(rt; inner_row(&two_planes, 1, 0), 48);
    Ok(())
}

#[test]
fn many_rows(rt: HostRuntime) -> Result<(), Fail> {
    let many = Shape {
        first: 700,
        second: Some(700),
        third: Some(1),
    };
    assert_eq!(rt; layout(rt.alloc(), &many)?.len(), 490_700);
    Ok(())
}
