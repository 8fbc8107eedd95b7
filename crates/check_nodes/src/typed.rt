use super::extent::Extent;
use super::made::Made;
use pawn_meaning::{Array, Expr, Scalar};
use pawn_tree::At;

/// What an expression is to its surroundings.
#[derive(Drop)]
pub enum Form {
    /// A value and no more.
    Value(Box<Expr>),
    /// A place of one cell, and whether it is constant.
    Place(Scalar, bool),
    /// An array or a part of one, how far it reaches, and whether it is constant.
    Whole(Array, Extent, bool),
    /// A literal: the number of its object, and its cells.
    Literal(u32, u32),
}

/// A typed expression: its first token, what it is, its tag, its value where it is a constant
/// expression, and what was made and found in it.
#[derive(Drop)]
pub struct Typed {
    pub at: At,
    pub form: Form,
    pub tag: u32,
    pub value: Option<i32>,
    pub made: Made,
}
