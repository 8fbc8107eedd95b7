use pawn_base::{Bytes, List};
use pawn_cells::Place;
use pawn_tree::{Dim, Expr, Init, Name};

/// An occurrence of a name: its token, and the place of its node, which begins with `sizeof` or
/// `tagof` where one takes the name.
#[derive(Drop)]
pub struct Use<'a> {
    pub name: &'a Bytes,
    pub token: usize,
    pub place: Place,
}

/// What is declared.
#[derive(Drop)]
pub enum Sort<'a> {
    Variable(&'a List<Dim>, &'a Option<Init>),
    Parameter(&'a List<Dim>),
    Constant(&'a Expr),
    /// The first constant of an enumeration, without a value.
    First,
    /// A later one without a value: one more than the constant of this name before it.
    Next(&'a Bytes),
    /// The name of an enumeration: one more than its last constant, which has this name; it has so
    /// many.
    Label(&'a Bytes, usize),
}

/// A declaration: its name, the place of its node, its tag, and whether it stands outside all
/// functions.
#[derive(Drop)]
pub struct Declaration<'a> {
    pub name: &'a Name,
    pub place: Place,
    pub tag: Option<&'a Name>,
    pub outside: bool,
    pub sort: Sort<'a>,
}

/// What stands in a tree that names matter to.
#[derive(Drop)]
pub enum Mark<'a> {
    /// A block begins.
    Opens,
    /// A block ends.
    Closes,
    /// A tag is mentioned.
    Mentions(&'a Bytes),
    /// A name occurs.
    Uses(Use<'a>),
    /// A declaration ends.
    Declares(Declaration<'a>),
}
