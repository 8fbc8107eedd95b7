ghost use Rattle.std.specs.Prelude.{◌≡◌};

use super::files::{Files, PutAnswer, ReadAnswer};
use pawn_base::Bytes;
use std::alloc::Global;
use std::io::{ErrorKind, Read};
use std::marker::Model;
use std::{fs, io};

/// The files of the host. It tells nothing of what they hold: contracts see the count of its
/// faults.
#[derive(Drop)]
pub struct HostFiles<'a, R> {
    rt: &'a R,
    faults: u64,
}

impl<'a, R> Model for HostFiles<'a, R> {
    ghost use Rattle.std.specs.Prelude.{ℕ};

    ghost Value = { ℕ };

    ghost view = { λ files. files.faults };
}

impl<'a, R> HostFiles<'a, R> {
    pub fn new(rt: &'a R) -> HostFiles<'a, R>
        ensures { result ≡ 0 }
    {
        HostFiles { rt, faults: 0 }
    }
}

impl<R: std::rt::Files> HostFiles<'_, R> {
    /// At most one byte more than the limit, which tells that a file is longer.
    fn read_past(&self, alloc: Global, name: &str, limit: u64) -> io::Result<Vec<u8>> {
        let mut bytes = Vec::new(alloc);
        let file = fs::open(self.rt, name)?;
        file.take(limit.saturating_add(1)).read_to_end(&mut bytes)?;
        Ok(bytes)
    }
}

impl<R: std::rt::Files> Files for HostFiles<'_, R> {
    ghost use Rattle.std.specs.Prelude.{None};

    ghost held = { λ _. None };

    ghost faults = { λ files. files };

    ghost never_fails = { λ _. ⊥ };

    fn read(&mut self, alloc: Global, name: &str, limit: u64) -> ReadAnswer {
        match self.read_past(alloc, name, limit) {
            Ok(bytes) if bytes.len() as u64 > limit => ReadAnswer::TooLarge,
            Ok(bytes) => ReadAnswer::Got(Bytes::from_vec(bytes)),
            Err(error) => match error.kind() {
                ErrorKind::NotFound => ReadAnswer::Missing,
                ErrorKind::OutOfMemory => ReadAnswer::Memory,
                _ => {
                    self.faults = self.faults.saturating_add(1);
                    ReadAnswer::Failed
                }
            },
        }
    }

    fn put(&mut self, name: &str, bytes: &[u8]) -> PutAnswer {
        match fs::write(self.rt, name, bytes) {
            Ok(()) => PutAnswer::Kept,
            Err(_) => {
                self.faults = self.faults.saturating_add(1);
                PutAnswer::Failed
            }
        }
    }
}
