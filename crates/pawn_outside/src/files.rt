ghost use Rattle.std.specs.Prelude.{◌≡◌, ◌≢◌, ℕ};

use pawn_base::Bytes;
use std::alloc::Global;

/// What a read answers.
#[derive(Debug, Drop)]
pub enum ReadAnswer {
    /// The bytes held at the name.
    Got(Bytes),
    /// The name isn't held.
    Missing,
    /// More bytes are held than the limit.
    TooLarge,
    /// The files failed, and their count of faults rose.
    Failed,
    Memory,
}

/// What a put answers.
#[derive(Clone, Copy, Debug, PartialEq, Eq)]
pub enum PutAnswer {
    /// The name holds the bytes.
    Kept,
    /// The files failed, and their count of faults rose. What the name holds now isn't known.
    Failed,
    Memory,
}

/// Files by name.
pub trait Files {
    ghost use Rattle.std.specs.declared.option.Option.{Option};
    ghost use Rattle.pawn_outside.specs.Held.{Held};
    ghost use Rattle.pawn_outside.specs.Answers.{IsRead, IsPut};
    ghost use Rattle.pawn_outside.specs.Rose.{risen};

    /// The map from names to bytes that is held, where the object tells it.
    ghost held: { Self → Option Held };

    /// How often the files failed. It stands still at the greatest u64.
    ghost faults: { Self → ℕ };

    /// No call fails from now on.
    ghost never_fails: { Self → Type 0 };

    /// Reads at most `limit` bytes held at a name. A longer file is `TooLarge`.
    fn read(&mut self, alloc: Global, name: &str, limit: u64) -> ReadAnswer
        ensures same { held self.new ≡ held self.old }
        ensures answer { IsRead (held self.old) name.now limit result }

        // A read that fails counts one fault, and another none. None fails where no call does.
        ensures steady { result ≢ ReadAnswer.Failed → faults self.new ≡ faults self.old }
        ensures cause { result ≡ ReadAnswer.Failed → faults self.new ≡ risen (faults self.old) }
        ensures unfailing { never_fails self.old →
            never_fails self.new × (result ≢ ReadAnswer.Failed) };

    /// Gives a name these bytes. Whatever the answer, all other names hold what they held.
    fn put(&mut self, name: &str, bytes: &[u8]) -> PutAnswer
        ensures answer { IsPut (held self.old) name.now bytes.now result (held self.new) }

        // A put that fails counts one fault, and another none. None fails where no call does.
        ensures steady { result ≢ PutAnswer.Failed → faults self.new ≡ faults self.old }
        ensures cause { result ≡ PutAnswer.Failed → faults self.new ≡ risen (faults self.old) }
        ensures unfailing { never_fails self.old →
            never_fails self.new × (result ≢ PutAnswer.Failed) };
}
