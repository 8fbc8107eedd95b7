use super::expression::Expr;
use super::name::{At, Name, StateName};
use super::statement::Stmt;
use super::variable::{Dim, Variables};
use pawn_base::List;
use pawn_token::Sign;

/// The declarations of a source, in order.
#[derive(Drop)]
pub struct Tree {
    pub decls: List<Decl>,
}

/// A declaration at the level of the file (Language Guide, "Declarations", "Functions").
#[derive(Drop)]
pub enum Decl {
    Variables(At, Variables),
    Constant(At, Constant),
    /// Constants that count up, and the name of their tag where they have one.
    Enum(At, Option<Name>, List<Item>),
    Native(At, Head),
    /// A function that is declared here and defined elsewhere, and whether it is public.
    Forward(At, bool, Head),
    Function(At, Function),
}

/// A constant with its tag, where it has one.
#[derive(Drop)]
pub struct Constant {
    pub tag: Option<Name>,
    pub name: Name,
    pub value: Expr,
}

/// A constant of an enumeration.
#[derive(Drop)]
pub struct Item {
    pub name: Name,
    pub value: Option<Expr>,
}

/// A function with its body.
#[derive(Drop)]
pub struct Function {
    pub is_static: bool,
    pub is_stock: bool,
    pub is_public: bool,
    pub head: Head,
    /// The states that it is for, where it has a classifier (Language Guide, "Automata").
    pub states: Option<List<StateName>>,
    pub body: Stmt,
}

/// What a function is called with.
#[derive(Drop)]
pub struct Head {
    pub tag: Option<Name>,
    pub name: HeadName,
    pub params: List<Param>,
}

/// What a function is called.
#[derive(Debug, Drop)]
pub enum HeadName {
    Name(Name),
    /// `operator` with its sign, and the token of `operator`.
    Operator(At, Sign),
}

/// A parameter. It has the tags that it is given; none is given where the list is empty.
#[derive(Drop)]
pub enum Param {
    Plain {
        constant: bool,
        reference: bool,
        tags: List<Name>,
        name: Name,
        dims: List<Dim>,
        value: Option<Expr>,
    },
    /// `...`, and its token.
    Rest(At, List<Name>),
}
