/// What became of the present part of a conditional.
#[derive(Clone, Copy, Debug, PartialEq, Eq)]
pub enum Part {
    /// It is chosen.
    Chosen,
    /// It isn't chosen, and neither was an earlier one.
    Waiting,
    /// An earlier one was chosen, or the conditional itself stands in a part that isn't.
    Done,
}

/// An open conditional.
#[derive(Clone, Copy, Debug, PartialEq, Eq)]
pub struct Conditional {
    pub part: Part,
    /// Its `#else` is past.
    pub past: bool,
}

/// The settings in force.
#[derive(Clone, Copy, Debug, PartialEq, Eq)]
pub struct Settings {
    pub control: u8,
    pub strict: bool,
    pub packed: bool,
    pub dynamic: i32,
}
