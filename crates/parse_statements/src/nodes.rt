//! Nodes that hold lists, or parts that may be left out.

ghost use Rattle.std.specs.Prelude.{◌≡◌, map, option_map};
ghost use Rattle.pawn_tree.specs.Statements as plain;
ghost use Rattle.pawn_tree.specs.View.{expr_view, stmt_view, case_view};
ghost use Rattle.parse_statements.specs.BoxedNodes.{boxed_stmt};

use pawn_base::List;
use pawn_tree::{At, Case, Expr, Stmt};

pub(crate) fn block_node(at: At, stmts: List<Stmt>) -> Stmt
    ensures { stmt_view result ≡ plain.Block at (plain.stmts (map stmt_view stmts)) }
{
    Stmt::Block(at, stmts)
}

pub(crate) fn if_node(at: At, test: Expr, body: Box<Stmt>, other: Option<Box<Stmt>>) -> Stmt
    ensures { stmt_view result ≡ plain.If at (expr_view test) (stmt_view body.value)
        (plain.maybe_stmt (option_map boxed_stmt other)) }
{
    Stmt::If(at, test, body, other)
}

pub(crate) fn switch_node(at: At, value: Expr, cases: List<Case>, other: Option<Box<Stmt>>) -> Stmt
    ensures { stmt_view result ≡ plain.Switch at (expr_view value)
        (plain.cases (map case_view cases)) (plain.maybe_stmt (option_map boxed_stmt other)) }
{
    Stmt::Switch(at, value, cases, other)
}
