ghost use Rattle.std.specs.Prelude.{◌≡◌, ◌↔◌, [], IsTrue, IfOk};

use pawn_base::{List, Memory};
use std::alloc::Global;

/// Which calls of a fake fail, how many it has had, and how many of them failed.
#[derive(Debug, Drop)]
pub struct Schedule {
    pub fails: List<u32>,
    pub calls: u64,
    pub faults: u64,
}

impl Schedule {
    ghost use Rattle.pawn_outside.specs.Schedule.{FailsNext, called, faulted};

    /// No call yet. Those that the list names, counted from 1, are to fail.
    pub fn new(alloc: Global, fails: &[u32]) -> Result<Schedule, Memory>
        ensures { IfOk result (λ schedule. schedule ≡
            record { fails = fails.now; calls = 0; faults = 0 }) }
    {
        let fails = List::from_vec(Vec::from_slice(alloc, fails)?);
        Ok(Schedule {
            fails,
            calls: 0,
            faults: 0,
        })
    }

    /// Counts a call, and says whether it is to fail.
    pub fn fails_now(&mut self) -> bool
        ensures listed { IsTrue result ↔ FailsNext self.old }
        ensures after { self.new ≡ called self.old }
    {
        self.calls = self.calls.saturating_add(1);
        let call = self.calls;
        self.fails
            .as_slice()
            .iter()
            .any(|listed| u64::from(*listed) == call)
    }

    /// Counts a call that failed.
    pub fn count_fault(&mut self)
        ensures { self.new ≡ faulted self.old }
    {
        self.faults = self.faults.saturating_add(1);
    }
}
