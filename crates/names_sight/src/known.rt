ghost use Rattle.std.specs.Prelude.{◌≡◌};
ghost use Rattle.names_sight.specs.Views.{known_view, meant_view};

use super::fault::Fault;

/// A size of an array, or why it has none.
pub type Size = Result<i32, Fault>;

/// What is declared.
#[derive(Drop)]
pub enum Kind {
    /// A variable or parameter, with the sizes of an array, the outermost first.
    Cells(Vec<Size>),
    /// A constant, with its value.
    Worth(i32),
}

/// What is known of a declaration: the token of its name, and its tag's number.
#[derive(Drop)]
pub struct Known {
    pub token: usize,
    pub tag: u32,
    pub kind: Kind,
}

/// What a name stands for.
#[derive(Clone, Copy)]
pub enum MeantKind<'s> {
    Cells(&'s [Size]),
    Worth(i32),
    Function,
}

/// What a name means: the token of the name in its declaration, which a predefined constant hasn't,
/// and its tag's number.
#[derive(Clone, Copy)]
pub struct Meant<'s> {
    pub token: Option<usize>,
    pub tag: u32,
    pub kind: MeantKind<'s>,
}

impl Known {
    /// What a name of this declaration means.
    pub fn meant(&self) -> Meant<'_>
        ensures { meant_view result ≡ known_view self.now }
    {
        Meant {
            token: Some(self.token),
            tag: self.tag,
            kind: match &self.kind {
                Kind::Cells(sizes) => MeantKind::Cells(sizes.as_slice()),
                Kind::Worth(value) => MeantKind::Worth(*value),
            },
        }
    }
}
