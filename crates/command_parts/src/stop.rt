ghost use Rattle.std.specs.Prelude.{◌≡◌};
ghost use Rattle.pawn_outside.specs.Said.{Said};
ghost use Rattle.command_parts.specs.Stop.{status_of, line_of, named_line, field_text};

use super::status::Status;
use itoa::Buffer;
use pawn_base::{Bytes, Memory};
use pawn_outside::{Sink, SinkFault, say};
use script_reader::Field;

/// What ends a command before its run, or between two segments of it.
#[derive(Debug, Drop)]
pub enum Stop {
    /// A source or a text is refused: the number of the cause, the file and its line.
    Refused { kind: u8, file: Bytes, line: u32 },
    BadWords,
    NoFile(Bytes),
    TooLarge(Bytes),
    FileFault,
    /// Bytes are no file, for the cause with this number.
    Invalid(u8),
    /// A file isn't valid, for a cause at the address of an instruction or the number of an entry.
    InvalidAt { kind: u8, at: i64 },
    /// Bytes are no JSON: 130.
    NoScript,
    /// A field of a script breaks its form or its range.
    BadScript { kind: u8, field: Field },
    NoEntry(Bytes),
    /// A native that isn't listed.
    Unregistered(Bytes),
    NoMemory,
    /// Bytes are no plan, for its line with this number.
    BadPlan(u64),
}

impl From<Memory> for Stop {
    ghost use Rattle.std.specs.Prelude.{◌≡◌};
    ghost use Rattle.command_parts.specs.declared.stop.Stop.TheVariants as variants;

    ghost from_gives = { λ _ stop. stop ≡ variants.NoMemory };

    fn from(_: Memory) -> Stop {
        Stop::NoMemory
    }
}

impl Stop {
    /// The status of a command that ended so.
    pub fn status(&self) -> Status
        ensures { result ≡ status_of self.now }
    {
        match self {
            Stop::Refused { .. } => Status::Refused,
            Stop::BadWords => Status::BadWords,
            Stop::NoFile(_) => Status::NoFile,
            Stop::TooLarge(_) => Status::TooLarge,
            Stop::FileFault => Status::FileFault,
            Stop::Invalid(_) | Stop::InvalidAt { .. } => Status::Invalid,
            Stop::NoScript | Stop::BadScript { .. } => Status::BadScript,
            Stop::NoEntry(_) => Status::NoEntry,
            Stop::Unregistered(_) => Status::Unregistered,
            Stop::NoMemory => Status::NoMemory,
            Stop::BadPlan(_) => Status::BadPlan,
        }
    }

    /// Writes the line of a command that ended so.
    pub fn say<S: Sink>(&self, out: &mut S) -> Result<(), SinkFault>
        ensures { Said S.taken S.faults S.has_room out.old out.new (line_of self.now) result }
    {
        match self {
            Stop::Refused { kind, file, line } => say_refused(out, *kind, file.as_slice(), *line),
            Stop::BadWords => say(out, &[b"bad words\n"]),
            Stop::NoFile(name) => say_named(out, b"no file ", name.as_slice()),
            Stop::TooLarge(name) => say_named(out, b"too large ", name.as_slice()),
            Stop::FileFault => say(out, &[b"file fault\n"]),
            Stop::Invalid(kind) => say_invalid(out, *kind),
            Stop::InvalidAt { kind, at } => say_invalid_at(out, *kind, *at),
            Stop::NoScript => say(out, &[b"bad script 130\n"]),
            Stop::BadScript { kind, field } => say_bad_script(out, *kind, *field),
            Stop::NoEntry(name) => say_named(out, b"no entry ", name.as_slice()),
            Stop::Unregistered(name) => say_named(out, b"unregistered ", name.as_slice()),
            Stop::NoMemory => say(out, &[b"no memory\n"]),
            Stop::BadPlan(line) => say_bad_plan(out, *line),
        }
    }
}

/// Writes a line that ends with a name.
fn say_named<S: Sink>(out: &mut S, front: &[u8], name: &[u8]) -> Result<(), SinkFault>
    ensures { let line = named_line front.now name.now in
        Said S.taken S.faults S.has_room out.old out.new line result }
{
    say(out, &[front, name, b"\n"])
}

fn say_refused<S: Sink>(out: &mut S, kind: u8, file: &[u8], line: u32) -> Result<(), SinkFault>
    ensures { let line = line_of (Stop.Refused kind file.now line) in
        Said S.taken S.faults S.has_room out.old out.new line result }
{
    let (mut kinds, mut lines) = (Buffer::new(), Buffer::new());
    let (kind, line) = (kinds.format(kind).as_bytes(), lines.format(line).as_bytes());
    say(out, &[b"refused ", kind, b" at ", file, b":", line, b"\n"])
}

fn say_invalid<S: Sink>(out: &mut S, kind: u8) -> Result<(), SinkFault>
    ensures { let line = line_of (Stop.Invalid kind) in
        Said S.taken S.faults S.has_room out.old out.new line result }
{
    let mut kinds = Buffer::new();
    say_named(out, b"invalid ", kinds.format(kind).as_bytes())
}

fn say_invalid_at<S: Sink>(out: &mut S, kind: u8, at: i64) -> Result<(), SinkFault>
    ensures { let line = line_of (Stop.InvalidAt kind at) in
        Said S.taken S.faults S.has_room out.old out.new line result }
{
    let (mut kinds, mut places) = (Buffer::new(), Buffer::new());
    let (kind, at) = (kinds.format(kind).as_bytes(), places.format(at).as_bytes());
    say(out, &[b"invalid ", kind, b" at ", at, b"\n"])
}

fn say_bad_script<S: Sink>(out: &mut S, kind: u8, field: Field) -> Result<(), SinkFault>
    ensures { let line = line_of (Stop.BadScript kind field) in
        Said S.taken S.faults S.has_room out.old out.new line result }
{
    let mut kinds = Buffer::new();
    let kind = kinds.format(kind).as_bytes();
    say(out, &[b"bad script ", kind, b" ", field_text(field), b"\n"])
}

fn say_bad_plan<S: Sink>(out: &mut S, line: u64) -> Result<(), SinkFault>
    ensures { let line = line_of (Stop.BadPlan line) in
        Said S.taken S.faults S.has_room out.old out.new line result }
{
    let mut lines = Buffer::new();
    say_named(out, b"bad plan ", lines.format(line).as_bytes())
}

/// A field of a script, as it is printed.
fn field_text(field: Field) -> &'static [u8]
    ensures { result.now ≡ field_text field }
{
    match field {
        Field::Script => b"script",
        Field::Others => b"others",
        Field::Natives => b"natives",
        Field::Answers => b"answers",
        Field::Name => b"name",
        Field::Forms => b"forms",
        Field::Rest => b"rest",
        Field::Result => b"result",
        Field::Writes => b"writes",
        Field::Arg => b"arg",
        Field::Cells => b"cells",
        Field::Error => b"error",
    }
}
