/// How a session ends.
#[derive(Clone, Copy, Debug, PartialEq, Eq)]
pub enum SessionEnd {
    /// The entry function returned this value.
    Done(i32),
    Exit { value: i32, tag: i32 },
    /// An AMX error (Implementer's Guide, "Error codes").
    Error(i32),
    /// A sleep, behind which the machine can go on.
    Asleep { value: i32, tag: i32 },
    /// All steps of the bound were done.
    Steps,
    /// The sink failed at the line of the last step.
    SinkFault,
}

/// How a run over sleeps ends.
#[derive(Clone, Copy, Debug, PartialEq, Eq)]
pub struct TraceEnd {
    /// The steps of all its segments together.
    pub steps: u128,
    /// The script's position.
    pub at: u32,
    /// How its last session ends.
    pub end: SessionEnd,
}
