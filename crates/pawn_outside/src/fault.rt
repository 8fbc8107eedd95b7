use thiserror::Error;

/// A sink failed. What it took is a prefix of what was to be written.
#[derive(Clone, Copy, Debug, PartialEq, Eq, Error)]
#[error("the sink failed")]
pub struct SinkFault;
