//! Trees: what the parser gives, and what names and types are looked up in. Every definition speaks
//! of their plain view (`specs/View.antt`), in which no pointer and no capacity is seen, so that
//! two trees with the same parts are equal.
#![tactic(auto)]

mod declaration;
mod declaration_height;
mod expression;
mod expression_height;
mod name;
mod statement;
mod statement_height;
mod variable;
mod variable_height;

pub use declaration::{Constant, Decl, Function, Head, HeadName, Item, Param, Tree};
pub use declaration_height::depth;
pub use expression::{Arg, Expr, Link, SizeofOperand, TagofOperand};
pub use name::{At, Name, StateName, Text};
pub use statement::{Case, First, Range, Stmt};
pub use variable::{Dim, Init, Storage, Var, Variables};
