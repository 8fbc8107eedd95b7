/// What one instruction did.
#[derive(Clone, Copy, Debug, PartialEq, Eq)]
pub enum Turn {
    Goes,
    /// An AMX error, which changed nothing.
    Errs(i32),
    /// A halt with its code.
    Halts(i32),
    /// It calls the native with this number.
    Asks(u32),
}
