use super::node::Stmt;
use pawn_arrays::Shape;
use pawn_base::{Bytes, Cells, List};

/// A typed program. Objects, functions, natives, automata and states are named by their numbers,
/// from 0.
#[derive(Drop)]
pub struct Program {
    /// Globals, statics and literals.
    pub objects: List<Object>,
    pub functions: List<Function>,
    /// The natives that are called, in the order of their declarations.
    pub natives: List<Bytes>,
    pub automata: List<Automaton>,
    /// The tags that the source spells, by number.
    pub tags: List<Tag>,
    /// The public functions, in the order of their names' bytes.
    pub publics: List<Public>,
    /// The number of `main`.
    pub entry: Option<u32>,
    /// The cells for heap and stack.
    pub dynamic: i32,
}

/// A global, a static or a literal, with its first cells, without offsets. The shape of a single
/// cell is (1).
#[derive(Drop)]
pub struct Object {
    pub shape: Shape,
    pub constant: bool,
    pub first: Cells,
}

/// A function. One with a classifier has a body for each clause and a route to them.
#[derive(Drop)]
pub struct Function {
    pub params: List<Slot>,
    pub tag: u32,
    pub dispatch: Option<Route>,
    pub bodies: List<Body>,
}

/// A body, whose first slots are the function's parameters.
#[derive(Drop)]
pub struct Body {
    pub slots: List<Slot>,
    pub stmt: Stmt,
}

/// A variable of a body, or a parameter.
#[derive(Drop)]
pub enum Slot {
    /// A cell of its own.
    Scalar,
    /// A reference to a cell.
    Reference,
    /// An array: one of its own, or as a parameter a reference to one with this shape.
    Array(Shape),
    /// A reference to an array of any first size, with the sizes after it.
    Open(List<u32>),
}

/// Which body serves a state of an automaton.
#[derive(Drop)]
pub struct Route {
    pub automaton: u32,
    /// A state's number and a body's.
    pub cases: List<(u32, u32)>,
    /// The body of all other states, and of none.
    pub fallback: Option<u32>,
}

/// An automaton with its states and its entry function.
#[derive(Drop)]
pub struct Automaton {
    pub name: Bytes,
    pub states: List<Bytes>,
    pub enter: Option<u32>,
}

/// A tag by its number.
#[derive(Drop)]
pub struct Tag {
    pub number: u32,
    pub name: Bytes,
}

/// A public function by its name.
#[derive(Drop)]
pub struct Public {
    pub name: Bytes,
    pub function: u32,
}
