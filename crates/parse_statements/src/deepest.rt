use pawn_base::List;
use pawn_tree::{Arg, At, Expr, Link};

/// The first token of the first of the lowest nodes of an expression. It takes a walk over all of
/// it, made once, where the expression is too high.
pub(crate) fn deepest_token(x: &Expr) -> usize {
    expr_levels(x).token
}

/// How many levels of nodes stand one above another, and the first token of the first node that
/// has all others above it.
#[derive(Clone, Copy)]
struct Levels {
    count: usize,
    token: usize,
}

impl Levels {
    /// Those of a node with none below it.
    fn one(at: At) -> Levels {
        Levels {
            count: 1,
            token: at.token,
        }
    }

    /// With one node more above them.
    fn under(self) -> Levels {
        Levels {
            count: self.count.saturating_add(1),
            token: self.token,
        }
    }

    /// These, unless there are more of those behind them.
    fn or(self, behind: Levels) -> Levels {
        if behind.count > self.count {
            behind
        } else {
            self
        }
    }
}

#[cycle(deepest)]
fn expr_levels(x: &Expr) -> Levels {
    match x {
        Expr::Number(at, _) | Expr::Name(at, _) => Levels::one(*at),
        Expr::Text(at, _, _) => Levels::one(*at),
        Expr::Sizeof(at, _) => Levels::one(*at),
        Expr::Tagof(at, _) => Levels::one(*at),
        Expr::Paren(_, x) | Expr::Prefix(_, _, x) => expr_levels(x).under(),
        Expr::Tagged(_, _, x) | Expr::Postfix(_, _, x) => expr_levels(x).under(),
        Expr::Index(_, x, y) | Expr::Character(_, x, y) => {
            expr_levels(x).or(expr_levels(y)).under()
        }
        Expr::Binary(_, _, x, y) => expr_levels(x).or(expr_levels(y)).under(),
        Expr::Assign(_, _, x, y) => expr_levels(x).or(expr_levels(y)).under(),
        Expr::Chain(_, x, links) => links_levels(expr_levels(x), links).under(),
        Expr::Choice(_, x, y, z) => {
            let first = expr_levels(x).or(expr_levels(y));
            first.or(expr_levels(z)).under()
        }
        Expr::Call(at, _, args, _) => args_levels(*at, args).under(),
    }
}

#[cycle(deepest)]
fn arg_levels(x: &Arg, none: Levels) -> Levels {
    match x {
        Arg::Value(x) | Arg::Named(_, x) => expr_levels(x),
        Arg::Default(_) => none,
    }
}

#[cycle(deepest)]
fn link_levels(x: &Link) -> Levels {
    match x {
        Link::Compare(_, x) => expr_levels(x),
    }
}

/// A call without a value has none below it.
#[cycle(deepest)]
fn args_levels(at: At, args: &List<Arg>) -> Levels {
    let none = Levels {
        count: 0,
        token: at.token,
    };
    let items = args.as_slice();
    let mut levels = none;
    for i in 0..items.len() {
        levels = levels.or(arg_levels(&items[i], none));
    }
    levels
}

#[cycle(deepest)]
fn links_levels(first: Levels, links: &List<Link>) -> Levels {
    let items = links.as_slice();
    let mut levels = first;
    for i in 0..items.len() {
        levels = levels.or(link_levels(&items[i]));
    }
    levels
}
