ghost use Rattle.std.specs.Prelude.{◌≡◌, ◌+◌, ◌*◌, map, nat_le, slice_get, sum_by, unwrap_or};
ghost use Rattle.pawn_arrays.specs.Sizes.{cell_count};
ghost use Rattle.pawn_meaning.specs.Capped.{capped};
ghost use Rattle.pawn_meaning.specs.declared.program_limits.TheConstants as limits;
ghost use Rattle.pawn_meaning.specs.Need as spec;
ghost use Rattle.pawn_meaning.specs.View.{slot_view, stmt_view, else_view};

use super::node::{Case, Stmt};
use super::program::Slot;
use super::program_limits::LOCALS_LIMIT;
use pawn_arrays::Shape;
use pawn_base::List;

/// The cells of an array, offsets among them.
fn shape_cells(shape: &Shape) -> u64
    ensures { result ≡ capped (cell_count shape.now) }
{
    let first = u64::from(shape.first);
    match shape.second {
        None => first,
        Some(second) => with_rows(first, first * u64::from(second), shape.third),
    }
}

/// The cells of a vector, of so many parts that it leads to, and of the rows that these lead to in
/// three dimensions.
fn with_rows(first: u64, parts: u64, third: Option<u32>) -> u64
    ensures { result ≡ capped (first + parts + parts * unwrap_or third 0) }
{
    let count = first.saturating_add(parts);
    match third {
        None => count,
        Some(third) => count.saturating_add(parts.saturating_mul(u64::from(third))),
    }
}

/// The cells that the local slot of this number takes, offsets among them.
fn slot_cells(slots: &[Slot], slot: u32) -> u64
    ensures { result ≡ capped (spec.slot_size (slice_get (map slot_view slots.now) slot)) }
{
    match slots.get(slot as usize) {
        None => 0,
        Some(Slot::Scalar) | Some(Slot::Reference) | Some(Slot::Open(_)) => 1,
        Some(Slot::Array(shape)) => shape_cells(shape),
    }
}

/// The cells that a statement of a list makes for the list.
fn made_by(stmt: &Stmt, slots: &[Slot]) -> u64
    ensures { result ≡ capped (spec.made_by (map slot_view slots.now) (stmt_view stmt.now)) }
{
    match stmt {
        Stmt::Local(slot, _) | Stmt::LocalArray(slot, _) => slot_cells(slots, *slot),
        _ => 0,
    }
}

/// The cells that a list of statements makes for itself.
fn own_locals(stmts: &List<Stmt>, slots: &[Slot]) -> u64
    ensures { result ≡ capped
        (sum_by (λ stmt. spec.made_by (map slot_view slots.now) (stmt_view stmt)) stmts.now) }
{
    let items = stmts.as_slice();
    let mut sum = 0u64;
    for i in 0..items.len() {
        sum = sum.saturating_add(made_by(&items[i], slots));
    }
    sum
}

/// The greatest sum of local cells on a path of blocks.
#[cycle(locals)]
pub fn locals(stmt: &Stmt, slots: &[Slot]) -> u64
    ensures { result ≡ capped (spec.locals (map slot_view slots.now) (stmt_view stmt.now)) }
{
    match stmt {
        Stmt::Block(stmts) => own_locals(stmts, slots).saturating_add(inner_locals(stmts, slots)),
        Stmt::If(_, s, other) => locals(s, slots).max(else_locals(other, slots)),
        Stmt::While(_, s) | Stmt::DoWhile(s, _) => locals(s, slots),
        Stmt::For(first, _, _, s) => {
            let inner = inner_locals(first, slots).max(locals(s, slots));
            own_locals(first, slots).saturating_add(inner)
        }
        Stmt::Switch(_, cases, other) => {
            cases_locals(cases, slots).max(else_locals(other, slots))
        }
        _ => 0,
    }
}

/// Of the greatest block in a list.
#[cycle(locals)]
fn inner_locals(stmts: &List<Stmt>, slots: &[Slot]) -> u64
    ensures { result ≡ capped (spec.greatest
        (map (λ stmt. spec.locals (map slot_view slots.now) (stmt_view stmt)) stmts.now)) }
{
    let items = stmts.as_slice();
    let mut greatest = 0;
    for i in 0..items.len() {
        greatest = greatest.max(locals(&items[i], slots));
    }
    greatest
}

#[cycle(locals)]
fn cases_locals(cases: &List<Case>, slots: &[Slot]) -> u64
    ensures { result ≡ capped (spec.greatest
        (map (λ case. spec.locals (map slot_view slots.now) (stmt_view case.stmt)) cases.now)) }
{
    let items = cases.as_slice();
    let mut greatest = 0;
    for i in 0..items.len() {
        greatest = greatest.max(locals(&items[i].stmt, slots));
    }
    greatest
}

#[cycle(locals)]
fn else_locals(other: &Option<Box<Stmt>>, slots: &[Slot]) -> u64
    ensures { result ≡ capped
        (spec.else_locals (map slot_view slots.now) (else_view other.now)) }
{
    match other {
        Some(s) => locals(s, slots),
        None => 0,
    }
}

/// Whether the locals of a body with these slots are within the limit on one path of blocks
/// (Language Guide, "Memory layout").
pub fn locals_fit(stmt: &Stmt, slots: &[Slot]) -> bool
    ensures { result ≡ nat_le (spec.locals (map slot_view slots.now) (stmt_view stmt.now))
        limits.LOCALS_LIMIT }
{
    locals(stmt, slots) <= LOCALS_LIMIT
}
