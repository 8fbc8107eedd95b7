use super::name::{At, Name, Text};
use pawn_base::{Bytes, List};
use pawn_token::Sign;

/// An expression (Language Guide, "Operators and expressions"). Each begins with its first token.
#[cycle(expression)]
pub enum Expr {
    /// A number or a character, as a cell.
    Number(At, i32),
    /// A text, with its escapes replaced, and whether it is packed.
    Text(At, Bytes, bool),
    Name(At, Bytes),
    Paren(At, Box<Expr>),
    Sizeof(At, SizeofOperand),
    Tagof(At, TagofOperand),
    /// `!`, `~`, `-`, `++` or `--` before its operand.
    Prefix(At, Sign, Box<Expr>),
    /// A tag before its operand.
    Tagged(At, Bytes, Box<Expr>),
    /// `++` or `--` behind its operand.
    Postfix(At, Sign, Box<Expr>),
    /// An array and what stands in `[]`.
    Index(At, Box<Expr>, Box<Expr>),
    /// An array and what stands in `{}`.
    Character(At, Box<Expr>, Box<Expr>),
    /// An operator of two operands that groups to the left, `,` among them.
    Binary(At, Sign, Box<Expr>, Box<Expr>),
    /// Comparisons by `<`, `<=`, `>` and `>=`, one behind another: the first operand, and the
    /// links.
    Chain(At, Box<Expr>, List<Link>),
    /// `? :`
    Choice(At, Box<Expr>, Box<Expr>, Box<Expr>),
    /// `=`, or an operator with `=`: what is assigned to, and the value.
    Assign(At, Sign, Box<Expr>, Box<Expr>),
    /// A call of the function of this name, and whether it stands without parentheses.
    Call(At, Bytes, List<Arg>, bool),
}

/// An argument of a call.
#[cycle(expression)]
#[derive(Drop)]
pub enum Arg {
    Value(Expr),
    /// `_`, which leaves the argument to its default.
    Default(At),
    /// `.name = value`
    Named(Name, Expr),
}

/// A comparison of a chain: its sign, and the operand to the right.
#[cycle(expression)]
#[derive(Drop)]
pub enum Link {
    Compare(Sign, Expr),
}

/// What `sizeof` takes, with the number of `[]` behind it, at most two.
#[derive(Debug, Drop)]
pub enum SizeofOperand {
    Name(Name, usize),
    Text(Text, usize),
}

/// What `tagof` takes.
#[derive(Debug, Drop)]
pub enum TagofOperand {
    Name(Name),
    Tag(Name),
}

impl Drop for Expr {
    #[cycle(expr_drop)]
    fn drop(self) {
        match self {
            Expr::Number(_, _) => {}
            Expr::Text(_, _bytes, _) | Expr::Name(_, _bytes) => {}
            Expr::Sizeof(_, _operand) => {}
            Expr::Tagof(_, _operand) => {}
            Expr::Call(_, _name, args, _) => drop(args),
            Expr::Paren(_, x) | Expr::Prefix(_, _, x) | Expr::Postfix(_, _, x) => drop_operand(x),
            Expr::Tagged(_, _tag, x) => drop_operand(x),
            Expr::Chain(_, x, links) => {
                drop_operand(x);
                drop(links);
            }
            Expr::Index(_, x, y)
            | Expr::Character(_, x, y)
            | Expr::Binary(_, _, x, y)
            | Expr::Assign(_, _, x, y) => {
                drop_operand(x);
                drop_operand(y);
            }
            Expr::Choice(_, x, y, z) => {
                drop_operand(x);
                drop_operand(y);
                drop_operand(z);
            }
        }
    }
}

/// It has a frame of its own, so that `drop` keeps no room for an operand: as many frames of that
/// stand as the tree has levels.
#[inline(never)]
#[cycle(expr_drop)]
fn drop_operand(x: Box<Expr>) {
    drop(Box::into_inner(x))
}
