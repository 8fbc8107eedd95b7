ghost use Rattle.command_parts.specs.Unread.{IsStopOf};

use super::stop::Stop;
use pawn_base::{Bytes, Memory};
use std::alloc::Global;

/// The stop at a name that isn't held.
pub fn no_file(alloc: Global, name: &str) -> Stop
    ensures { IsStopOf (Stop.NoFile name.now) result }
{
    match Bytes::from_slice(alloc, name.as_bytes()) {
        Ok(name) => Stop::NoFile(name),
        Err(Memory) => Stop::NoMemory,
    }
}

/// The stop at a file that is longer than its limit.
pub fn too_large(alloc: Global, name: &str) -> Stop
    ensures { IsStopOf (Stop.TooLarge name.now) result }
{
    match Bytes::from_slice(alloc, name.as_bytes()) {
        Ok(name) => Stop::TooLarge(name),
        Err(Memory) => Stop::NoMemory,
    }
}

/// The stop at a line of a text that is refused, for the cause with this number.
pub fn refused(alloc: Global, kind: u8, name: &str, line: u32) -> Stop
    ensures { IsStopOf (Stop.Refused kind name.now line) result }
{
    match Bytes::from_slice(alloc, name.as_bytes()) {
        Ok(file) => Stop::Refused { kind, file, line },
        Err(Memory) => Stop::NoMemory,
    }
}

/// The stop at an entry that isn't there.
pub fn no_entry(alloc: Global, name: &[u8]) -> Stop
    ensures { IsStopOf (Stop.NoEntry name.now) result }
{
    match Bytes::from_slice(alloc, name) {
        Ok(name) => Stop::NoEntry(name),
        Err(Memory) => Stop::NoMemory,
    }
}

/// The stop at a native that a script doesn't serve.
pub fn unregistered(alloc: Global, name: &[u8]) -> Stop
    ensures { IsStopOf (Stop.Unregistered name.now) result }
{
    match Bytes::from_slice(alloc, name) {
        Ok(name) => Stop::Unregistered(name),
        Err(Memory) => Stop::NoMemory,
    }
}
