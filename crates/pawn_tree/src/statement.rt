use super::declaration::Constant;
use super::expression::Expr;
use super::name::{At, StateName};
use super::variable::{Var, Variables};
use pawn_base::List;

/// A statement (Language Guide, "Statements").
#[cycle(statement)]
pub enum Stmt {
    /// `;`
    Empty(At),
    /// An expression whose value isn't used.
    Do(At, Expr),
    Block(At, List<Stmt>),
    If(At, Expr, Box<Stmt>, Option<Box<Stmt>>),
    While(At, Expr, Box<Stmt>),
    /// A loop whose condition stands behind its body.
    DoWhile(At, Box<Stmt>, Expr),
    /// What is done first, the condition, the step, and the body.
    For(At, First, Option<Expr>, Option<Expr>, Box<Stmt>),
    /// The value, the cases, and what is done where none fits.
    Switch(At, Expr, List<Case>, Option<Box<Stmt>>),
    Return(At, Option<Expr>),
    Exit(At, Option<Expr>),
    Sleep(At, Option<Expr>),
    Assert(At, Expr),
    Break(At),
    Continue(At),
    /// A change of state, and the condition under which it takes place.
    State(At, Option<Expr>, StateName),
    /// Variables of a block.
    Local(At, Variables),
    /// A constant of a block.
    Constant(At, Constant),
}

/// What a `for` begins with.
#[derive(Drop)]
pub enum First {
    Nothing,
    New(List<Var>),
    Value(Expr),
}

/// A case of a `switch`: the values that it stands for, and what is done for them.
#[cycle(statement)]
#[derive(Drop)]
pub enum Case {
    Values(At, List<Range>, Stmt),
}

/// A value, or all from a first to a last one.
#[derive(Drop)]
pub struct Range {
    pub first: Expr,
    pub last: Option<Expr>,
}

impl Drop for Stmt {
    #[cycle(stmt_drop)]
    fn drop(self) {
        match self {
            Stmt::Empty(_) | Stmt::Break(_) | Stmt::Continue(_) => {}
            Stmt::Do(_, x) | Stmt::Assert(_, x) => drop(x),
            Stmt::Return(_, x) | Stmt::Exit(_, x) | Stmt::Sleep(_, x) => drop(x),
            Stmt::State(_, x, name) => {
                drop(x);
                drop(name);
            }
            Stmt::Local(_, x) => drop(x),
            Stmt::Constant(_, x) => drop(x),
            Stmt::Block(_, list) => drop_block(list),
            Stmt::If(_, x, s, other) => {
                drop(x);
                drop_body(s);
                if let Some(s) = other {
                    drop_body(s);
                }
            }
            Stmt::While(_, x, s) | Stmt::DoWhile(_, s, x) => {
                drop(x);
                drop_body(s);
            }
            Stmt::For(_, first, test, step, s) => {
                drop(first);
                drop(test);
                drop(step);
                drop_body(s);
            }
            Stmt::Switch(_, x, cases, other) => {
                drop(x);
                drop_cases(cases);
                if let Some(s) = other {
                    drop_body(s);
                }
            }
        }
    }
}

// ---- each with a frame of its own, so that `drop` keeps no room for a statement: as many of its
// frames stand as the tree has levels

#[inline(never)]
#[cycle(stmt_drop)]
fn drop_body(s: Box<Stmt>) {
    drop(Box::into_inner(s))
}

#[inline(never)]
#[cycle(stmt_drop)]
fn drop_block(list: List<Stmt>) {
    drop(list)
}

#[inline(never)]
#[cycle(stmt_drop)]
fn drop_cases(list: List<Case>) {
    drop(list)
}
