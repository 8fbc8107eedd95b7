ghost use Rattle.std.specs.Prelude.{◌≡◌};
ghost use Rattle.host_embed.specs.Shown as shown;

use amx_machine::Event;

/// What a run came to, as C sees it. The kind: 0 all steps were done, 1 a native is waited for, 2 a
/// sleep, 3 done, 4 an exit, 5 an error.
#[repr(C)]
#[derive(Clone, Copy, Debug, PartialEq, Eq)]
pub struct SulkhenEvent {
    /// How many steps were done.
    pub steps: u64,
    pub kind: i32,
    /// The number of the native.
    pub native: u32,
    /// PRI at a sleep, behind main or at an exit; the AMX error.
    pub value: i32,
    /// ALT at a sleep and at an exit.
    pub tag: i32,
}

impl SulkhenEvent {
    /// The event behind so many steps.
    pub fn new(steps: u64, event: Event) -> SulkhenEvent
        ensures { result ≡ shown.event_of steps event }
    {
        let nothing = SulkhenEvent {
            steps,
            kind: 0,
            native: 0,
            value: 0,
            tag: 0,
        };
        match event {
            Event::Going => nothing,
            Event::Native(native) => SulkhenEvent {
                kind: 1,
                native,
                ..nothing
            },
            Event::Halt { code, pri, alt } => halt(nothing, code, pri, alt),
            Event::Error(code) => SulkhenEvent {
                kind: 5,
                value: code,
                ..nothing
            },
        }
    }
}

/// The event of a halt: a code other than those of a sleep and of ends is an error.
fn halt(nothing: SulkhenEvent, code: i32, pri: i32, alt: i32) -> SulkhenEvent
    ensures { result ≡ shown.halted nothing.steps code pri alt }
{
    let (kind, value, tag) = match code {
        12 => (2, pri, alt),
        0 => (3, pri, 0),
        1 => (4, pri, alt),
        _ => (5, code, 0),
    };
    SulkhenEvent {
        steps: nothing.steps,
        kind,
        native: 0,
        value,
        tag,
    }
}
