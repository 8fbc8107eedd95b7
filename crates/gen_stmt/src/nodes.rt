ghost use Rattle.std.specs.Prelude.{◌≡◌, ◌+◌, ◌*◌, ◌++◌, [], ◌∷◌, pos, neg_ℤ, length, true};
ghost use Rattle.std.specs.Prelude.{false, IfOk};
ghost use Rattle.pawn_cells.specs.Cells.{cell_of as bits_as_cell};
ghost use Rattle.pawn_meaning.specs.View.{expr_view, perhaps_view};
ghost use Rattle.gen_sim.specs.SimpleCode.{alone, taking};
ghost use Rattle.gen_sim.specs.PlaceItems.{object_code};
ghost use Rattle.gen_laws.specs.ExprCode.{value_items, effect_items};
ghost use Rattle.gen_sim.specs.FlowCode.{leave_code, assert_code};
ghost use Rattle.gen_sim.specs.PushCode.{value_push, pushed_by};
ghost use Rattle.gen_laws.specs.MadeCode.{local_array_code};
ghost use Rattle.gen_laws.specs.StmtCode.{condition_items, step_items};
ghost use Rattle.gen_laws.specs.BranchItems.{jump_items, perhaps_jumps};
ghost use Rattle.gen_expr.specs.Built.{with_items};
ghost use Rattle.gen_stmt.specs.Grown.{Grown};
ghost use Rattle.gen_stmt.specs.Ended.{Ended};
ghost use Rattle.gen_stmt.specs.Keeps.{scope_in};
ghost use Rattle.gen_stmt.specs.Standing.{Stands};

use super::conditions::{self, jump_where, open};
use super::draft::{Draft, Hole};
use super::left::dropped;
use super::locals::Locals;
use super::place::{At, Place, own_cells};
use amx_ops::Op;
use gen_expr::frame::object;
use gen_expr::put::cell_of;
use gen_expr::{Builder, expression, push_expression};
use pawn_base::{List, Memory};
use pawn_meaning::Expr;

/// The value of an expression, to PRI.
pub fn valued(
    e: &Expr,
    place: &Place<'_>,
    locals: &Locals,
    code: Builder,
) -> Result<Builder, Memory>
    requires { Stands place.now locals.now }
    ensures { IfOk result (λ r. r ≡ with_items (value_items
        (scope_in place.now locals.now.made.items) (4 * length code.code) (expr_view e.now)) code) }
{
    let frame = locals.frame(place);
    expression(e, &frame, code)
}

/// A condition, to PRI: 1 where it is absent.
pub fn condition(
    c: &Option<Expr>,
    place: &Place<'_>,
    locals: &Locals,
    code: Builder,
) -> Result<Builder, Memory>
    requires { Stands place.now locals.now }
    ensures { IfOk result (λ r. r ≡ with_items (condition_items
        (scope_in place.now locals.now.made.items) (4 * length code.code)
        (perhaps_view c.now)) code) }
{
    match c {
        Some(e) => valued(e, place, locals, code),
        None => code.put(Op::ConstPri, 1),
    }
}

/// A condition of a statement, beside its jumps, which are taken where it doesn't hold and lead
/// nowhere yet.
pub fn leave_unless(
    e: &Expr,
    place: &Place<'_>,
    locals: &Locals,
    b: Draft,
) -> Result<(Draft, List<Hole>), Memory>
    requires { Stands place.now locals.now }
    ensures { IfOk result (λ r. Ended b r.0 r.1 (λ to exits. jump_items
        (scope_in place.now locals.now.made.items) false to (4 * length b.code.code)
        (expr_view e.now))) }
{
    let frame = locals.frame(place);
    open(e, false, &frame, b)
}

/// A loop's condition, whose jumps are taken where it holds.
pub fn jump_if(e: &Expr, place: &Place<'_>, locals: &Locals, code: Builder) -> Result<Draft, Memory>
    requires { Stands place.now locals.now }
    ensures { IfOk result (λ r. Grown (record { code = code; holes = [] }) r (λ exits. jump_items
        (scope_in place.now locals.now.made.items) true exits.broke (4 * length code.code)
        (expr_view e.now))) }
{
    let frame = locals.frame(place);
    jump_where(e, true, &frame, Draft::new(place.alloc, code))
}

/// The same, where it may be absent.
pub fn perhaps_jump(
    e: &Option<Expr>,
    place: &Place<'_>,
    locals: &Locals,
    code: Builder,
) -> Result<Draft, Memory>
    requires { Stands place.now locals.now }
    ensures { IfOk result (λ r. Grown (record { code = code; holes = [] }) r (λ exits. perhaps_jumps
        (scope_in place.now locals.now.made.items) true exits.broke (4 * length code.code)
        (perhaps_view e.now))) }
{
    let frame = locals.frame(place);
    conditions::perhaps_jump(e, &frame, Draft::new(place.alloc, code))
}

/// An expression whose value isn't used.
fn unused(e: &Expr, place: &Place<'_>, locals: &Locals, code: Builder) -> Result<Builder, Memory>
    requires { Stands place.now locals.now }
    ensures { IfOk result (λ r. r ≡ with_items (effect_items
        (scope_in place.now locals.now.made.items) (4 * length code.code) (expr_view e.now)) code) }
{
    let frame = locals.frame(place);
    gen_expr::effect(e, &frame, code)
}

/// A loop's step, where there is one.
pub fn step(
    c: &Option<Expr>,
    place: &Place<'_>,
    locals: &Locals,
    code: Builder,
) -> Result<Builder, Memory>
    requires { Stands place.now locals.now }
    ensures { IfOk result (λ r. r ≡ with_items (step_items
        (scope_in place.now locals.now.made.items) (4 * length code.code)
        (perhaps_view c.now)) code) }
{
    match c {
        Some(e) => unused(e, place, locals, code),
        None => Ok(code),
    }
}

/// An expression in a draft, whose value isn't used.
#[inline(never)]
pub fn effect(e: &Expr, place: &Place<'_>, locals: &Locals, b: Draft) -> Result<Draft, Memory>
    requires { Stands place.now locals.now }
    ensures { IfOk result (λ r. Grown b r (λ exits. effect_items
        (scope_in place.now locals.now.made.items) (4 * length b.code.code) (expr_view e.now))) }
{
    let Draft { code, holes } = b;
    let code = unused(e, place, locals, code)?;
    Ok(Draft { code, holes })
}

/// The value of an expression in a draft.
#[inline(never)]
pub fn value(e: &Expr, place: &Place<'_>, locals: &Locals, b: Draft) -> Result<Draft, Memory>
    requires { Stands place.now locals.now }
    ensures { IfOk result (λ r. Grown b r (λ exits. value_items
        (scope_in place.now locals.now.made.items) (4 * length b.code.code) (expr_view e.now))) }
{
    let Draft { code, holes } = b;
    let code = valued(e, place, locals, code)?;
    Ok(Draft { code, holes })
}

/// The value of an expression is pushed.
fn push(e: &Expr, place: &Place<'_>, locals: &Locals, code: Builder) -> Result<Builder, Memory>
    requires { Stands place.now locals.now }
    ensures { IfOk result (λ r. let scope = scope_in place.now locals.now.made.items in
        r ≡ with_items (pushed_by (value_push scope (expr_view e.now))
        (value_items scope (4 * length code.code) (expr_view e.now))) code) }
{
    let frame = locals.frame(place);
    push_expression(e, &frame, code)
}

/// A local with its value, which is pushed.
#[inline(never)]
pub fn local(s: u32, e: &Expr, at: &At<'_>, locals: &mut Locals, b: Draft) -> Result<Draft, Memory>
    requires { Stands at.now.place locals.old }
    ensures made { IfOk result (λ _. locals.new.made.items ≡ locals.old.made.items ++ s ∷ []) }
    ensures stands { IfOk result (λ _. Stands at.now.place locals.new) }
    ensures code { IfOk result (λ r. let scope = scope_in at.now.place locals.old.made.items in
        Grown b r (λ exits. pushed_by (value_push scope (expr_view e.now))
        (value_items scope (4 * length b.code.code) (expr_view e.now)))) }
{
    let Draft { code, holes } = b;
    let code = push(e, &at.place, locals, code)?;
    locals.make(s, &at.place)?;
    Ok(Draft { code, holes })
}

/// The bytes of so many cells, with a minus sign.
fn minus(cells: u32) -> Result<i32, Memory>
    ensures { IfOk result (λ x. x ≡ neg_ℤ (pos (4 * cells))) }
{
    let bytes = cell_of(4 * u64::from(cells))?;
    Ok(-bytes)
}

/// So many bytes are taken from the stack, and their address goes to ALT.
#[tactic(auto, using(gen_expr::proofs::GrowLaws::then_grow))]
fn taken(bytes: i32, b: Builder) -> Result<Builder, Memory>
    ensures { IfOk result (λ r. r ≡ with_items
        (taking Op.Stack bytes ∷ taking Op.Lctrl (pos 4) ∷ alone Op.MoveAlt ∷ []) b) }
{
    let b = b.put(Op::Stack, bytes)?;
    let b = b.put(Op::Lctrl, 4)?;
    let b = b.put(Op::MoveAlt, 0)?;
    Ok(b)
}

/// The address of an object, to PRI.
fn object_at(o: u32, place: &Place<'_>, locals: &Locals, code: Builder) -> Result<Builder, Memory>
    requires { Stands place.now locals.now }
    ensures { IfOk result (λ r. r ≡ with_items (object_code
        (scope_in place.now locals.now.made.items).program o) code) }
{
    let frame = locals.frame(place);
    object(o, &frame, code)
}

/// A local array with the cells of an object.
fn array_made(
    s: u32,
    o: u32,
    place: &Place<'_>,
    locals: &Locals,
    code: Builder,
) -> Result<Builder, Memory>
    requires { Stands place.now locals.now }
    ensures { IfOk result (λ r. r ≡ with_items (local_array_code
        (scope_in place.now locals.now.made.items) s o) code) }
{
    let own = own_cells(s, place.slots)?;
    let bytes = cell_of(4 * u64::from(own))?;
    let down = minus(own)?;
    let taken = taken(down, code)?;
    let from = object_at(o, place, locals, taken)?;
    let filled = from.put(Op::Movs, bytes)?;
    Ok(filled)
}

/// A local array.
#[inline(never)]
pub fn local_array(
    s: u32,
    o: u32,
    at: &At<'_>,
    locals: &mut Locals,
    b: Draft,
) -> Result<Draft, Memory>
    requires { Stands at.now.place locals.old }
    ensures made { IfOk result (λ _. locals.new.made.items ≡ locals.old.made.items ++ s ∷ []) }
    ensures stands { IfOk result (λ _. Stands at.now.place locals.new) }
    ensures code { IfOk result (λ r. Grown b r (λ exits.
        local_array_code (scope_in at.now.place locals.old.made.items) s o)) }
{
    let Draft { code, holes } = b;
    let code = array_made(s, o, &at.place, locals, code)?;
    locals.make(s, &at.place)?;
    Ok(Draft { code, holes })
}

/// The body is left with a value: all its locals leave the stack, and RETN takes the frame.
#[inline(never)]
pub fn returned(e: &Expr, place: &Place<'_>, locals: &Locals, b: Draft) -> Result<Draft, Memory>
    requires { Stands place.now locals.now }
    ensures { IfOk result (λ r. let scope = scope_in place.now locals.now.made.items in
        Grown b r (λ exits. value_items scope (4 * length b.code.code) (expr_view e.now)
        ++ (leave_code scope.slots scope.made ++ alone Op.Retn ∷ []))) }
{
    let valued = value(e, place, locals, b)?;
    let all = locals.mark();
    let left = dropped(all.made, all.cells, valued)?;
    let done = left.put(Op::Retn, 0)?;
    Ok(done)
}

/// A value and a tag's number, with which the machine halts.
#[inline(never)]
pub fn halted(
    e: &Expr,
    tag: u32,
    reason: i32,
    place: &Place<'_>,
    locals: &Locals,
    b: Draft,
) -> Result<Draft, Memory>
    requires { Stands place.now locals.now }
    ensures { IfOk result (λ r. Grown b r (λ exits. value_items
        (scope_in place.now locals.now.made.items) (4 * length b.code.code) (expr_view e.now)
        ++ (taking Op.ConstAlt (bits_as_cell tag) ∷ taking Op.Halt reason ∷ []))) }
{
    let valued = value(e, place, locals, b)?;
    let tagged = valued.put(Op::ConstAlt, tag.cast_signed())?;
    let done = tagged.put(Op::Halt, reason)?;
    Ok(done)
}

/// The machine halts where the value in PRI is 0.
#[tactic(auto, using(gen_expr::proofs::GrowLaws::then_grow))]
fn asserted(b: Builder) -> Result<Builder, Memory>
    ensures { IfOk result (λ r. let p = 4 * length b.code in r ≡ with_items
        (taking Op.Jzer (pos (p + 16)) ∷ taking Op.Jump (pos (p + 24))
        ∷ taking Op.Halt (pos 2) ∷ []) b) }
{
    let begin = 4 * b.code().len() as u64;
    let fault = cell_of(begin + 16)?;
    let end = cell_of(begin + 24)?;
    let b = b.put(Op::Jzer, fault)?;
    let b = b.put(Op::Jump, end)?;
    let b = b.put(Op::Halt, 2)?;
    Ok(b)
}

/// An assertion.
#[inline(never)]
pub fn assertion(e: &Expr, place: &Place<'_>, locals: &Locals, b: Draft) -> Result<Draft, Memory>
    requires { Stands place.now locals.now }
    ensures { IfOk result (λ r. Grown b r (λ exits. assert_code (4 * length b.code.code)
        (value_items
        (scope_in place.now locals.now.made.items) (4 * length b.code.code) (expr_view e.now)))) }
{
    let Draft { code, holes } = b;
    let valued = valued(e, place, locals, code)?;
    let code = asserted(valued)?;
    Ok(Draft { code, holes })
}
