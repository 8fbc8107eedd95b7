ghost use Rattle.std.specs.Prelude.{◌≡◌};
ghost use Rattle.pawn_meaning.specs.View.{stmt_view, stmts_view};
ghost use Rattle.gen_laws.specs.GoesOn.{leaves, list_leaves, never_goes_on};

use pawn_meaning::Stmt;

/// Whether a statement returns, leaves a loop's pass, or ends the run.
fn leaves(s: &Stmt) -> bool
    ensures { result ≡ leaves (stmt_view s.now) }
{
    match s {
        Stmt::Return(_) | Stmt::Break | Stmt::Continue | Stmt::Exit(..) => true,
        _ => false,
    }
}

/// Whether one of a list does, so that control never comes to the list's end.
#[tactic(auto, using(crate::proofs::LeavesLaws::leaves_here, crate::proofs::LeavesLaws::leaves_later, crate::proofs::LeavesLaws::leaves_nowhere))]
pub fn list_leaves(list: &[Stmt]) -> bool
    ensures { result ≡ list_leaves (stmts_view list.now) }
{
    for s in list {
        if leaves(s) {
            return true;
        }
    }
    false
}

/// Whether control never comes to a statement's end.
pub fn never_goes_on(s: &Stmt) -> bool
    ensures { result ≡ never_goes_on (stmt_view s.now) }
{
    match s {
        Stmt::Block(list) => list_leaves(list.as_slice()),
        _ => leaves(s),
    }
}
