/// How code and data stand in a file.
#[derive(Clone, Copy, Debug, PartialEq, Eq)]
pub enum Encoding {
    /// Four bytes a cell.
    Plain,
    /// One to five bytes a cell, as few as it needs.
    Compact,
}
