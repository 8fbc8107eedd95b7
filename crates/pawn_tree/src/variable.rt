use super::expression::Expr;
use super::name::{At, Name};
use pawn_base::List;

/// With which word variables are declared (Language Guide, "Declarations").
#[derive(Clone, Copy, Debug, PartialEq, Eq)]
pub enum Storage {
    New,
    Static,
    Stock,
}

/// Variables that are declared together.
#[derive(Drop)]
pub struct Variables {
    pub storage: Storage,
    pub constant: bool,
    pub vars: List<Var>,
}

/// A variable with its tag, its dimensions and its first value, where it has these.
#[derive(Drop)]
pub struct Var {
    pub tag: Option<Name>,
    pub name: Name,
    pub dims: List<Dim>,
    pub init: Option<Init>,
}

/// A dimension of an array.
#[derive(Drop)]
pub enum Dim {
    /// `[]`
    Open,
    /// `[size]`, in cells.
    Cells(Expr),
    /// `[size char]`
    Chars(Expr),
}

/// A first value.
#[cycle(init)]
#[derive(Drop)]
pub enum Init {
    Value(Expr),
    /// Values in braces, and whether `...` stands behind them.
    Braces(At, List<Init>, bool),
}
