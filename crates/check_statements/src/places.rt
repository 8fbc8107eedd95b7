ghost use Rattle.std.specs.Prelude.{◌≡◌};
ghost use Rattle.pawn_tree.specs.View.{first_view, stmt_view};
ghost use Rattle.check_nodes.specs.Scopes.{outer_of, without};
ghost use Rattle.check_statements.specs.BodyJudging.{declares, declares_first};

use check_locals::Point;
use pawn_tree::{First, Stmt};

/// How many names a statement declares in its block.
pub fn declared_in(s: &Stmt) -> usize
    ensures { result ≡ declares (stmt_view s.now) }
{
    match s {
        Stmt::Local(_, it) => it.vars.len(),
        Stmt::Constant(_, _) => 1,
        _ => 0,
    }
}

/// How many names are declared by what a `for` does first.
pub fn declared_first(first: &First) -> usize
    ensures { result ≡ declares_first (first_view first.now) }
{
    match first {
        First::Nothing => 0,
        First::New(vars) => vars.len(),
        First::Value(_) => 0,
    }
}

/// The place goes back to where a `for` began.
pub fn go_back(point: &mut Point, first: &First, objects: u32, slots: u32)
    ensures scopes { point.new.scopes ≡
        without (declares_first (first_view first.now)) point.old.scopes }
    ensures objects { point.new.objects ≡ objects }
    ensures slots { point.new.slots ≡ slots }
{
    point.forget(declared_first(first));
    point.objects = objects;
    point.slots = slots;
}

/// The block of a `for` ends, behind so many objects and slots.
pub fn close(point: &mut Point, objects: u32, slots: u32)
    ensures scopes { point.new.scopes ≡ outer_of point.old.scopes }
    ensures objects { point.new.objects ≡ objects }
    ensures slots { point.new.slots ≡ slots }
{
    point.leave();
    point.objects = objects;
    point.slots = slots;
}
