use pawn_base::{Bytes, Cells, List};

/// An argument as a native saw it.
#[derive(Debug, Drop)]
pub enum Seen {
    Cell(i32),
    /// The cell that the argument refers to.
    Ref(i32),
    Cells(Cells),
    /// The characters of a text, each a whole cell where it is unpacked.
    Text(Cells),
}

/// What a run shows to its host.
#[derive(Debug, Drop)]
pub enum Event {
    /// A native was answered.
    Native {
        name: Bytes,
        seen: List<Seen>,
        result: i32,
    },
    /// The script sleeps, and may be continued.
    Slept {
        value: i32,
        tag: i32,
    },
}

/// How a run ends.
#[derive(Clone, Copy, Debug, PartialEq, Eq)]
pub enum End {
    /// The entry function returned this value.
    Done(i32),
    Exit { value: i32, tag: i32 },
    /// An AMX error (Implementer's Guide, "Error codes").
    Error(i32),
    /// A stray access, behind which no source has a meaning.
    Stray,
}
