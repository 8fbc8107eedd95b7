use std::alloc::{AllocError, AllocFailed};
use thiserror::Error;

/// Want of memory. It is the one refusal that no clause ties to a cause, so no other is merged
/// with it.
#[derive(Clone, Copy, Debug, PartialEq, Eq, Error)]
#[error("no memory")]
pub struct Memory;

impl From<AllocError> for Memory {
    fn from(_: AllocError) -> Memory {
        Memory
    }
}

impl<T: Drop> From<AllocFailed<T>> for Memory {
    fn from(_: AllocFailed<T>) -> Memory {
        Memory
    }
}
