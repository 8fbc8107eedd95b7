use pawn_base::List;
use pawn_cells::{Comparison, Operator, Prefix};
use std::boxed::Box;

/// A place of one cell, or of one packed character.
#[cycle(expression)]
#[derive(Drop)]
pub enum Scalar {
    /// The first cell of the object with this number.
    Global(u32),
    /// The own cell of this slot.
    Slot(u32),
    /// The cell that this slot refers to.
    Through(u32),
    /// An element of an array of one dimension.
    Element(Box<Array>, Box<Expr>),
    /// A packed character of an array of one dimension.
    Char(Box<Array>, Box<Expr>),
}

/// An array, or a part of one.
#[cycle(expression)]
#[derive(Drop)]
pub enum Array {
    /// The object with this number.
    Object(u32),
    /// The array that this slot made.
    SlotArray(u32),
    /// The array that this parameter refers to, and whether its size is known.
    ParamArray(u32, bool),
    /// What a first index leads to, in an array of two or three dimensions.
    Row(Box<Array>, Box<Expr>),
    /// The rest of an array of one dimension from an element on.
    From(Box<Array>, Box<Expr>),
}

/// An expression, whose value is a cell.
#[cycle(expression)]
#[derive(Drop)]
pub enum Expr {
    Const(i32),
    Read(Scalar),
    Unary(Prefix, Box<Expr>),
    Binary(Operator, Box<Expr>, Box<Expr>),
    /// A row of comparisons, with its first operand.
    Chain(Box<Expr>, List<Link>),
    And(Box<Expr>, Box<Expr>),
    Or(Box<Expr>, Box<Expr>),
    Cond(Box<Expr>, Box<Expr>, Box<Expr>),
    Assign(Scalar, Box<Expr>),
    Update(Scalar, Operator, Box<Expr>),
    /// An update by the user's operator with this number, its operands exchanged or not. What the
    /// operator gives may be converted by another one.
    UpdateBy(Scalar, u32, bool, Box<Expr>, Option<u32>),
    /// One more or one less. With `true` the value is the new one.
    Step(Scalar, i32, bool),
    /// A step by the user's operator with this number.
    StepBy(Scalar, u32, bool),
    /// So many cells of the second array go to the first.
    Copy(Box<Array>, Box<Array>, u32),
    /// The user's operator with this number on two operands, exchanged or not.
    Operate(u32, Box<Expr>, Box<Expr>, bool),
    /// The user's operator with this number on one operand.
    OperateOne(u32, Box<Expr>),
    /// A call of the function with this number.
    Call(u32, List<Arg>),
    /// A call of the native with this number.
    Native(u32, List<Arg>),
    Seq(Box<Expr>, Box<Expr>),
}

/// A comparison of a chain with its right operand. It may be a user's operator, whose operands may
/// be exchanged.
#[cycle(expression)]
#[derive(Drop)]
pub struct Link {
    pub op: Comparison,
    pub operand: Expr,
    pub function: Option<u32>,
    pub swapped: bool,
}

/// An argument of a call.
#[cycle(expression)]
#[derive(Drop)]
pub enum Arg {
    Value(Expr),
    /// A reference to a cell.
    Ref(Scalar),
    /// A reference to an array or a part of one.
    Whole(Array),
    /// A reference to a cell of its own, which holds this value until the call is over.
    Temp(Expr),
}

/// A statement.
#[cycle(statement)]
#[derive(Drop)]
pub enum Stmt {
    Block(List<Stmt>),
    /// Makes a slot of one cell with a value.
    Local(u32, Expr),
    /// Makes a slot that is an array, with the cells of an object.
    LocalArray(u32, u32),
    /// An expression whose value isn't used.
    Do(Expr),
    If(Expr, Box<Stmt>, Option<Box<Stmt>>),
    While(Expr, Box<Stmt>),
    DoWhile(Box<Stmt>, Expr),
    /// What is done first, the condition, the step and the body.
    For(List<Stmt>, Option<Expr>, Option<Expr>, Box<Stmt>),
    Switch(Expr, List<Case>, Option<Box<Stmt>>),
    Return(Expr),
    Break,
    Continue,
    /// The end of the run, with a value and the number of its tag.
    Exit(Expr, u32),
    /// A sleep, with a value and the number of its tag.
    Sleep(Expr, u32),
    Assert(Expr),
    /// The automaton goes to the state where the condition holds.
    State(u32, u32, Option<Expr>),
    Empty,
}

/// A case of a `switch`: ranges from a least to a greatest value, and what is done in them.
#[cycle(statement)]
#[derive(Drop)]
pub struct Case {
    pub ranges: List<(i32, i32)>,
    pub stmt: Stmt,
}
