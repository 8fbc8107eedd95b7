//! The numbers of AMX errors (Implementer's Guide, "Error codes").

/// Stack and heap collide.
pub(crate) const COLLISION: i32 = 3;
/// An index out of bounds.
pub(crate) const BOUNDS: i32 = 4;
/// An access to memory that isn't live, or to no multiple of its size.
pub(crate) const ACCESS: i32 = 5;
/// No instruction.
pub(crate) const INSTRUCTION: i32 = 6;

pub(crate) const STACK_UNDERFLOW: i32 = 7;

pub(crate) const HEAP_UNDERFLOW: i32 = 8;

pub(crate) const DIVIDE: i32 = 11;
/// No such native.
pub(crate) const NOT_FOUND: i32 = 19;
