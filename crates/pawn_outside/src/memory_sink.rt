ghost use Rattle.std.specs.Prelude.{◌≡◌, ◌≤◌, ◌+◌, ℕ, [], IfOk, Some, length};

use super::schedule::Schedule;
use super::sink::{Sink, WriteAnswer};
use pawn_base::Memory;
use std::alloc::Global;
use std::marker::Model;

/// A sink in memory, for tests. Contracts see the bytes taken, its room and the schedule of the
/// writes that fail.
#[derive(Drop)]
pub struct MemorySink {
    taken: Vec<u8>,
    room: usize,
    schedule: Schedule,
}

impl Model for MemorySink {
    ghost use Rattle.std.specs.Prelude.{◌≤◌, vec_capacity};
    ghost use Rattle.pawn_outside.specs.MemorySink.{FakeSink};

    ghost Value = { FakeSink };

    ghost view = { λ sink. record {
      taken = sink.taken.items;
      room = sink.room;
      schedule = sink.schedule;
    } };

    ghost invariant = { λ sink. sink.room ≤ vec_capacity sink.taken };
}

impl MemorySink {
    /// Has taken nothing, and has room for so many bytes, which is reserved here once. The writes
    /// that the list names, counted from 1, fail, and so does each that doesn't fit.
    pub fn new(alloc: Global, capacity: u32, fails: &[u32]) -> Result<MemorySink, Memory>
        ensures { IfOk result (λ sink. sink ≡ record {
          taken = [];
          room = capacity;
          schedule = record { fails = fails.now; calls = 0; faults = 0 };
        }) }
    {
        let room = capacity as usize;
        let taken = Vec::with_capacity(alloc, room)?;
        let schedule = Schedule::new(alloc, fails)?;
        Ok(MemorySink {
            taken,
            room,
            schedule,
        })
    }

    /// The bytes taken.
    pub fn bytes(&self) -> &[u8]
        ensures { result.now ≡ self.now.taken }
    {
        self.taken.as_slice()
    }

    /// How many writes failed.
    pub fn faults(&self) -> u64
        ensures { result ≡ self.now.schedule.faults }
    {
        self.schedule.faults
    }

    /// How many writes were made.
    pub fn calls(&self) -> u64
        ensures { result ≡ self.now.schedule.calls }
    {
        self.schedule.calls
    }
}

impl Sink for MemorySink {
    ghost use Rattle.std.specs.Prelude.{◌≡◌, ◌+◌, Some, [], length};
    ghost use Rattle.pawn_outside.specs.Answers.{IsWrite};
    ghost use Rattle.pawn_outside.specs.MemorySink.{IsAfterWrite, HasRoom};
    ghost use Rattle.pawn_outside.specs.Rose.{risen};

    ghost taken = { λ sink. Some sink.taken };

    ghost faults = { λ sink. sink.schedule.faults };

    ghost has_room = { HasRoom };

    fn write(&mut self, bytes: &[u8]) -> WriteAnswer
        ensures after { IsAfterWrite self.old bytes.now result self.new }

        // As of all sinks.
        ensures answer { IsWrite (Some self.old.taken) bytes.now result (Some self.new.taken) }
        ensures steady { result ≡ WriteAnswer.Taken →
            self.new.schedule.faults ≡ self.old.schedule.faults }
        ensures cause { result ≡ WriteAnswer.Failed →
            self.new.schedule.faults ≡ risen self.old.schedule.faults }
        ensures unfailing { (rest : ℕ) → HasRoom self.old (length bytes.now + rest) →
            HasRoom self.new rest × (result ≡ WriteAnswer.Taken) }
    {
        let listed = self.schedule.fails_now();
        let fits = self.taken.len() <= self.room && bytes.len() <= self.room - self.taken.len();
        if listed || !fits {
            self.schedule.count_fault();
            return WriteAnswer::Failed;
        }
        self.taken.extend_from_slice(bytes).unwrap();
        WriteAnswer::Taken
    }
}
