ghost use Rattle.std.specs.Prelude.{◌≡◌, ◌+◌, ℕ, List, length};

/// What a write answers.
#[derive(Clone, Copy, Debug, PartialEq, Eq)]
pub enum WriteAnswer {
    /// All the bytes were taken.
    Taken,
    /// The sink failed, and its count of faults rose. It may have taken a prefix of the bytes.
    Failed,
}

/// What takes the bytes that a program writes.
pub trait Sink {
    ghost use Rattle.std.specs.declared.option.Option.{Option};
    ghost use Rattle.pawn_outside.specs.Answers.{IsWrite};
    ghost use Rattle.pawn_outside.specs.Rose.{risen};

    /// The bytes taken so far, where the object tells them.
    ghost taken: { Self → Option (List ℕ) };

    /// How often the sink failed. It stands still at the greatest u64.
    ghost faults: { Self → ℕ };

    /// The next so many bytes will be taken, in however many writes.
    ghost has_room: { Self → ℕ → Type 0 };

    /// Writes bytes behind those taken.
    fn write(&mut self, bytes: &[u8]) -> WriteAnswer
        ensures answer { IsWrite (taken self.old) bytes.now result (taken self.new) }

        // A write that fails counts one fault, and another none. None fails where there is room.
        ensures steady { result ≡ WriteAnswer.Taken → faults self.new ≡ faults self.old }
        ensures cause { result ≡ WriteAnswer.Failed → faults self.new ≡ risen (faults self.old) }
        ensures unfailing { (rest : ℕ) → has_room self.old (length bytes.now + rest) →
            has_room self.new rest × (result ≡ WriteAnswer.Taken) };
}
