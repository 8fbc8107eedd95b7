/// How a schedule ended.
#[derive(Clone, Copy, Debug, PartialEq, Eq)]
pub enum Served {
    /// All events are done.
    Done,
    /// The sink failed at a line.
    SinkFault,
}
