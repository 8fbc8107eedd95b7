ghost use Rattle.std.specs.Prelude.{◌≡◌};

use super::sink::{Sink, WriteAnswer};
use std::io;
use std::io::Write;
use std::marker::Model;

/// The standard output of the host. It tells nothing of what it took: contracts see the count of
/// its faults.
#[derive(Drop)]
pub struct HostSink<'a, R> {
    rt: &'a R,
    faults: u64,
}

impl<'a, R> Model for HostSink<'a, R> {
    ghost use Rattle.std.specs.Prelude.{ℕ};

    ghost Value = { ℕ };

    ghost view = { λ sink. sink.faults };
}

impl<'a, R> HostSink<'a, R> {
    pub fn new(rt: &'a R) -> HostSink<'a, R>
        ensures { result ≡ 0 }
    {
        HostSink { rt, faults: 0 }
    }
}

impl<R: Print> Sink for HostSink<'_, R> {
    ghost use Rattle.std.specs.Prelude.{None};

    ghost taken = { λ _. None };

    ghost faults = { λ sink. sink };

    ghost has_room = { λ _ _. ⊥ };

    fn write(&mut self, bytes: &[u8]) -> WriteAnswer {
        match io::writer(self.rt).write_all(bytes) {
            Ok(()) => WriteAnswer::Taken,
            Err(_) => {
                self.faults = self.faults.saturating_add(1);
                WriteAnswer::Failed
            }
        }
    }
}
