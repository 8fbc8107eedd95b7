ghost use Rattle.std.specs.Prelude.{◌≡◌, ◌≢◌, OnOk, OnErr, IfOk, IfSome, Some, None};
ghost use Rattle.std.specs.Option.{option_copied};
ghost use Rattle.std.specs.FinMap.{empty, get, insert};

use super::files::{Files, PutAnswer, ReadAnswer};
use super::schedule::Schedule;
use pawn_base::{Bytes, Memory};
use std::alloc::Global;
use std::collections::VecDeque;
use std::marker::Model;

/// Files in memory, for tests. Contracts see the map held and the schedule of the calls that fail.
/// What a name held before stays behind what it holds now, and isn't seen again.
#[derive(Drop)]
pub struct MemoryFiles {
    alloc: Global,
    newest_first: VecDeque<(Bytes, Bytes)>,
    schedule: Schedule,
}

impl Model for MemoryFiles {
    ghost use Rattle.std.specs.FinMap.{from_entries};
    ghost use Rattle.pawn_outside.specs.MemoryFiles.{FakeFiles, fake_files_code};

    ghost Value = { FakeFiles };

    ghost coded = { fake_files_code };

    ghost view = { λ files. record {
      held = from_entries files.newest_first.items;
      schedule = files.schedule;
    } };
}

impl MemoryFiles {
    ghost use Rattle.pawn_outside.specs.MemoryFiles.{with_held};

    /// Holds nothing. The calls of `read` and `put` that the list names, counted from 1, fail.
    pub fn new(alloc: Global, fails: &[u32]) -> Result<MemoryFiles, Memory>
        ensures { IfOk result (λ files. files ≡ record {
          held = empty;
          schedule = record { fails = fails.now; calls = 0; faults = 0 };
        }) }
    {
        let schedule = Schedule::new(alloc, fails)?;
        Ok(MemoryFiles {
            alloc,
            newest_first: VecDeque::new(alloc),
            schedule,
        })
    }

    /// Gives a name these bytes. This isn't counted as a call.
    pub fn hold(&mut self, name: &str, bytes: &[u8]) -> Result<(), Memory>
        ensures ok { OnOk result (self.new ≡ with_held self.old name.now bytes.now) }
        ensures err { OnErr result (self.new ≡ self.old) }
    {
        let name = Bytes::from_slice(self.alloc, name.as_bytes())?;
        let bytes = Bytes::from_slice(self.alloc, bytes)?;
        self.newest_first.push_front((name, bytes))?;
        Ok(())
    }

    /// How many calls failed.
    pub fn faults(&self) -> u64
        ensures { result ≡ self.now.schedule.faults }
    {
        self.schedule.faults
    }

    /// How many calls of `read` and `put` were made.
    pub fn calls(&self) -> u64
        ensures { result ≡ self.now.schedule.calls }
    {
        self.schedule.calls
    }

    /// What a name holds.
    fn find(&self, name: &str) -> Option<&Bytes>
        ensures { option_copied result ≡ get self.now.held name.now }
    {
        for (known, bytes) in &self.newest_first {
            if name.as_bytes() == known.as_slice() {
                return Some(bytes);
            }
        }
        None
    }
}

impl Files for MemoryFiles {
    ghost use Rattle.std.specs.Prelude.{◌≡◌, Some, []};
    ghost use Rattle.pawn_outside.specs.Answers.{IsRead, IsPut};
    ghost use Rattle.pawn_outside.specs.MemoryFiles.{IsAfterRead, IsAfterPut};
    ghost use Rattle.pawn_outside.specs.Rose.{risen};

    ghost held = { λ files. Some files.held };

    ghost faults = { λ files. files.schedule.faults };

    ghost never_fails = { λ files. files.schedule.fails ≡ [] };

    fn read(&mut self, alloc: Global, name: &str, limit: u64) -> ReadAnswer
        ensures after { IsAfterRead self.old result self.new }

        // As of all files.
        ensures same { self.new.held ≡ self.old.held }
        ensures answer { IsRead (Some self.old.held) name.now limit result }
        ensures steady { result ≢ ReadAnswer.Failed →
            self.new.schedule.faults ≡ self.old.schedule.faults }
        ensures cause { result ≡ ReadAnswer.Failed →
            self.new.schedule.faults ≡ risen self.old.schedule.faults }
        ensures unfailing { self.old.schedule.fails ≡ [] →
            (self.new.schedule.fails ≡ []) × (result ≢ ReadAnswer.Failed) }
    {
        if self.schedule.fails_now() {
            self.schedule.count_fault();
            return ReadAnswer::Failed;
        }
        match self.find(name) {
            None => ReadAnswer::Missing,
            Some(bytes) if bytes.len() as u64 > limit => ReadAnswer::TooLarge,
            Some(bytes) => match Bytes::from_slice(alloc, bytes.as_slice()) {
                Ok(copy) => ReadAnswer::Got(copy),
                Err(Memory) => ReadAnswer::Memory,
            },
        }
    }

    fn put(&mut self, name: &str, bytes: &[u8]) -> PutAnswer
        ensures after { IsAfterPut self.old name.now bytes.now result self.new }

        // As of all files.
        ensures answer { IsPut (Some self.old.held) name.now bytes.now result (Some self.new.held) }
        ensures steady { result ≢ PutAnswer.Failed →
            self.new.schedule.faults ≡ self.old.schedule.faults }
        ensures cause { result ≡ PutAnswer.Failed →
            self.new.schedule.faults ≡ risen self.old.schedule.faults }
        ensures unfailing { self.old.schedule.fails ≡ [] →
            (self.new.schedule.fails ≡ []) × (result ≢ PutAnswer.Failed) }
    {
        if self.schedule.fails_now() {
            self.schedule.count_fault();
            return PutAnswer::Failed;
        }
        match self.hold(name, bytes) {
            Ok(()) => PutAnswer::Kept,
            Err(Memory) => PutAnswer::Memory,
        }
    }
}
