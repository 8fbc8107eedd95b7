/// Where a line stands: the number of its file, counted from 0 in the order of reading, and its
/// number in that file, counted from 1.
#[derive(Clone, Copy, Debug, PartialEq, Eq)]
pub struct Place {
    pub file: u64,
    pub line: u32,
}
