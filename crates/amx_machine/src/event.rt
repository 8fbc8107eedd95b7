/// What steps came to.
#[derive(Clone, Copy, Debug, PartialEq, Eq)]
pub enum Event {
    /// It goes on.
    Going,
    /// It waits for the native with this number.
    Native(u32),
    /// A halt with its code and what PRI and ALT are. Code 12 is a sleep.
    Halt { code: i32, pri: i32, alt: i32 },
    /// An AMX error (Implementer's Guide, "Error codes"), which changed nothing.
    Error(i32),
}
