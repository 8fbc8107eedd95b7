//! Array shapes: how many cells an array takes, and how an array of two or three dimensions
//! stands in memory, as vectors of offsets with the rows behind them.
#![tactic(auto)]

mod shape;

pub use shape::{CELL_LIMIT, Shape, cells, inner_row, layout, row};
