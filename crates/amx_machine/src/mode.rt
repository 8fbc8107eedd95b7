/// What a machine does.
#[derive(Clone, Copy, Debug, PartialEq, Eq)]
pub enum Mode {
    /// It wasn't started.
    Loaded,
    Running,
    Asleep,
    /// It waits for a native.
    Waiting,
    /// It ended by a halt with this code.
    Halted(i32),
    /// It ended by an error.
    Failed(i32),
}
