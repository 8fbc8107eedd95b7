use super::kind::Kind;

/// A number with its kind, what it says, what gives it, and its cure.
pub type Row = (Kind, u8, &'static str, &'static str, &'static str);
