ghost use Rattle.std.specs.Prelude.{◌≡◌, ◌*◌, ◌++◌, [], ◌∷◌, false, length, IfOk};
ghost use Rattle.pawn_meaning.specs.View.{expr_view, perhaps_view, stmt_view, stmts_view};
ghost use Rattle.pawn_meaning.specs.View.{cases_view, else_view};
ghost use Rattle.pawn_meaning.specs.Program.{Block, If, otherwise, While, DoWhile};
ghost use Rattle.pawn_meaning.specs.ValidStmts.{slots_made, slots_made_by};
ghost use Rattle.gen_sim.specs.JumpCode.{jump_to};
ghost use Rattle.gen_laws.specs.BranchItems.{jump_items};
ghost use Rattle.gen_laws.specs.ClosedCode.{closed_only};
ghost use Rattle.gen_laws.specs.StmtCode.{stmt_items, stmts_items, else_items, for_items};
ghost use Rattle.gen_stmt.specs.Grown.{Grown};
ghost use Rattle.gen_stmt.specs.Ended.{Ended};
ghost use Rattle.gen_stmt.specs.Firsts.{first_code};
ghost use Rattle.gen_stmt.specs.Keeps.{scope_in};
ghost use Rattle.gen_stmt.specs.declared.draft.Exit.TheVariants as exit;
ghost use Rattle.gen_stmt.specs.Cased.{IsCased};
ghost use Rattle.gen_stmt.specs.Standing.{here_in, within_in, Stands, Within};

use super::cases::{Cased, jump_at, table_at};
use super::draft::{Draft, Exit, Hole};
use super::goes_on::list_leaves;
use super::left::{leave_block, leave_loop};
use super::locals::Locals;
use super::loops::{close, close_until};
use super::nodes::{
    assertion, effect, halted, jump_if, leave_unless, local, local_array, perhaps_jump, returned,
    step, value, valued,
};
use super::place::{At, Place};
use super::states::state;
use super::switches::begin_switch;
use amx_ops::Op;
use gen_expr::Builder;
use gen_expr::jumps::{land, last_cell};
use gen_expr::put::address;
use pawn_base::{List, Memory};
use pawn_meaning::{Case, Expr, Stmt};

/// Appends the code of a statement.
#[cycle(statement)]
pub fn statement(s: &Stmt, at: &At<'_>, locals: &mut Locals, b: Draft) -> Result<Draft, Memory>
    requires { Within at.now.place at.now.since locals.old }
    ensures made { IfOk result (λ _.
        locals.new.made.items ≡ locals.old.made.items ++ slots_made (stmt_view s.now)) }
    ensures within { IfOk result (λ _. Within at.now.place at.now.since locals.new) }
    ensures code { IfOk result (λ r. Grown b r (λ exits. stmt_items
        (here_in at.now.place locals.old.made.items at.now.since.made exits)
        (4 * length b.code.code) (stmt_view s.now))) }
{
    match s {
        Stmt::Block(list) => block(list, at, locals, b),
        Stmt::Local(s, e) => local(*s, e, at, locals, b),
        Stmt::LocalArray(s, o) => local_array(*s, *o, at, locals, b),
        Stmt::Do(e) => effect(e, &at.place, locals, b),
        Stmt::If(c, a, other) => match other {
            None => only_part(c, a, at, locals, b),
            Some(s) => both_parts(c, a, s, at, locals, b),
        },
        Stmt::While(c, s) => while_do(s, c, at, locals, b),
        Stmt::DoWhile(s, c) => do_while(s, c, at, locals, b),
        Stmt::For(first, c, next, s) => {
            let begun = locals.mark();
            let ready = statements(first, at, locals, b)?;
            let done = for_loop(s, c, next, &at.place, locals, ready)?;
            leave_block(false, begun, &at.place, locals, done)
        }
        Stmt::Switch(e, cases, other) => {
            let valued = value(e, &at.place, locals, b)?;
            let (cased, led) = all_cases(cases, at, locals, valued)?;
            let done = alternative(other, at, locals, cased)?;
            led.close(cases.as_slice(), done)
        }
        Stmt::Return(e) => returned(e, &at.place, locals, b),
        Stmt::Break => leave_loop(Exit::Break, at.since, &at.place, locals, b),
        Stmt::Continue => leave_loop(Exit::Continue, at.since, &at.place, locals, b),
        Stmt::Exit(e, tag) => halted(e, *tag, 1, &at.place, locals, b),
        Stmt::Sleep(e, tag) => halted(e, *tag, 12, &at.place, locals, b),
        Stmt::Assert(e) => assertion(e, &at.place, locals, b),
        Stmt::State(a, to, c) => state(*a, *to, c, &at.place, locals, b),
        Stmt::Empty => Ok(b),
    }
}

// ---- statements by their parts: most kinds have a frame of their own, since a frame has room for
// all the locals in it, and as many frames stand as the tree has levels

/// A block.
#[cycle(statement)]
#[inline(never)]
fn block(list: &List<Stmt>, at: &At<'_>, locals: &mut Locals, b: Draft) -> Result<Draft, Memory>
    requires { Within at.now.place at.now.since locals.old }
    ensures made { IfOk result (λ _. locals.new.made.items ≡ locals.old.made.items) }
    ensures within { IfOk result (λ _. Within at.now.place at.now.since locals.new) }
    ensures code { IfOk result (λ r. Grown b r (λ exits. stmt_items
        (here_in at.now.place locals.old.made.items at.now.since.made exits)
        (4 * length b.code.code) (Block (stmts_view list.now)))) }
{
    let begun = locals.mark();
    let done = statements(list, at, locals, b)?;
    let never = list_leaves(list.as_slice());
    leave_block(never, begun, &at.place, locals, done)
}

/// One part or another by a condition.
#[cycle(statement)]
#[inline(never)]
fn both_parts(
    c: &Expr,
    one: &Stmt,
    other: &Stmt,
    at: &At<'_>,
    locals: &mut Locals,
    b: Draft,
) -> Result<Draft, Memory>
    requires { Within at.now.place at.now.since locals.old }
    ensures made { IfOk result (λ _. locals.new.made.items ≡ locals.old.made.items) }
    ensures within { IfOk result (λ _. Within at.now.place at.now.since locals.new) }
    ensures code { IfOk result (λ r. Grown b r (λ exits. stmt_items
        (here_in at.now.place locals.old.made.items at.now.since.made exits)
        (4 * length b.code.code)
        (If (expr_view c.now) (stmt_view one.now) (otherwise (stmt_view other.now))))) }
{
    let (first, end) = first_part(c, one, at, locals, b)?;
    let second = part(other, at, locals, first)?;
    second.land(end)
}

/// A part of a statement: the slots that it makes aren't in force behind it.
#[cycle(statement)]
fn part(s: &Stmt, at: &At<'_>, locals: &mut Locals, b: Draft) -> Result<Draft, Memory>
    requires { Within at.now.place at.now.since locals.old }
    ensures made { IfOk result (λ _. locals.new.made.items ≡ locals.old.made.items) }
    ensures within { IfOk result (λ _. Within at.now.place at.now.since locals.new) }
    ensures code { IfOk result (λ r. Grown b r (λ exits. stmt_items
        (here_in at.now.place locals.old.made.items at.now.since.made exits)
        (4 * length b.code.code) (stmt_view s.now))) }
{
    let begun = locals.mark();
    let done = statement(s, at, locals, b)?;
    locals.leave(begun);
    Ok(done)
}

/// What alone is done where a condition holds.
#[cycle(statement)]
#[inline(never)]
fn only_part(
    c: &Expr,
    s: &Stmt,
    at: &At<'_>,
    locals: &mut Locals,
    b: Draft,
) -> Result<Draft, Memory>
    requires { Within at.now.place at.now.since locals.old }
    ensures made { IfOk result (λ _. locals.new.made.items ≡ locals.old.made.items) }
    ensures within { IfOk result (λ _. Within at.now.place at.now.since locals.new) }
    ensures code { IfOk result (λ r. Grown b r (λ exits. closed_only (4 * length b.code.code)
        (λ to. jump_items (scope_in at.now.place locals.old.made.items) false to
        (4 * length b.code.code) (expr_view c.now))
        (λ q. stmt_items (here_in at.now.place locals.old.made.items at.now.since.made exits) q
        (stmt_view s.now)))) }
{
    let (ready, ends) = leave_unless(c, &at.place, locals, b)?;
    let first = part(s, at, locals, ready)?;
    first.land_all(ends.as_slice(), 0)
}

/// A condition, what is done where it holds, and a jump over what is done where it doesn't. Where
/// that jump is to lead isn't known yet: its operand is the last cell.
#[cycle(statement)]
fn first_part(
    c: &Expr,
    s: &Stmt,
    at: &At<'_>,
    locals: &mut Locals,
    b: Draft,
) -> Result<(Draft, u32), Memory>
    requires { Within at.now.place at.now.since locals.old }
    ensures made { IfOk result (λ _. locals.new.made.items ≡ locals.old.made.items) }
    ensures within { IfOk result (λ _. Within at.now.place at.now.since locals.new) }
    ensures code { IfOk result (λ r. Ended b r.0 (record { at = r.1; exit = exit.Break } ∷ [])
        (λ end exits. first_code (4 * length b.code.code) end
        (λ to. jump_items (scope_in at.now.place locals.old.made.items) false to
        (4 * length b.code.code) (expr_view c.now))
        (λ q. stmt_items (here_in at.now.place locals.old.made.items at.now.since.made exits) q
        (stmt_view s.now)))) }
{
    let (ready, ends) = leave_unless(c, &at.place, locals, b)?;
    let first = part(s, at, locals, ready)?;
    let led = first.land_all(ends.as_slice(), 8)?;
    let jumped = led.put(Op::Jump, 0)?;
    let end = last_cell(&jumped.code)?;
    Ok((jumped, end))
}

/// What stands behind `else`, where there is something.
#[cycle(statement)]
fn alternative(
    other: &Option<Box<Stmt>>,
    at: &At<'_>,
    locals: &mut Locals,
    b: Draft,
) -> Result<Draft, Memory>
    requires { Within at.now.place at.now.since locals.old }
    ensures made { IfOk result (λ _. locals.new.made.items ≡ locals.old.made.items) }
    ensures within { IfOk result (λ _. Within at.now.place at.now.since locals.new) }
    ensures code { IfOk result (λ r. Grown b r (λ exits. else_items
        (here_in at.now.place locals.old.made.items at.now.since.made exits)
        (4 * length b.code.code) (else_view other.now))) }
{
    match other {
        Some(s) => part(s, at, locals, b),
        None => Ok(b),
    }
}

/// The body of a loop, whose jumps to the loop's exits are led when these are known.
#[cycle(statement)]
fn body(s: &Stmt, place: &Place<'_>, locals: &mut Locals, code: Builder) -> Result<Draft, Memory>
    requires { Stands place.now locals.old }
    ensures made { IfOk result (λ _. locals.new.made.items ≡ locals.old.made.items) }
    ensures stands { IfOk result (λ _. Stands place.now locals.new) }
    ensures code { IfOk result (λ r. Grown (record { code = code; holes = [] }) r (λ exits.
        stmt_items (within_in place.now locals.old.made.items exits) (4 * length code.code)
        (stmt_view s.now))) }
{
    let since = locals.mark();
    let begun = Draft::new(place.alloc, code);
    let at = At {
        place: *place,
        since,
    };
    let done = part(s, &at, locals, begun)?;
    Ok(done)
}

/// A loop with a condition before each pass, which stands behind the body. A jump leads there
/// first.
#[cycle(statement)]
#[inline(never)]
fn while_do(s: &Stmt, c: &Expr, at: &At<'_>, locals: &mut Locals, b: Draft) -> Result<Draft, Memory>
    requires { Stands at.now.place locals.old }
    ensures made { IfOk result (λ _. locals.new.made.items ≡ locals.old.made.items) }
    ensures stands { IfOk result (λ _. Stands at.now.place locals.new) }
    ensures code { IfOk result (λ r. Grown b r (λ exits. stmt_items
        (within_in at.now.place locals.old.made.items exits) (4 * length b.code.code)
        (While (expr_view c.now) (stmt_view s.now)))) }
{
    let Draft { code, holes } = b;
    let begun = code.put(Op::Jump, 0)?;
    let hole = last_cell(&begun)?;
    let start = address(&begun)?;
    let Draft {
        code: passed,
        holes: out,
    } = body(s, &at.place, locals, begun)?;
    let more = address(&passed)?;
    let landed = land(hole, passed)?;
    let told = jump_if(c, &at.place, locals, landed)?;
    let code = close(told, start, more, out.as_slice())?;
    Ok(Draft { code, holes })
}

/// A loop with a test behind each pass.
#[cycle(statement)]
#[inline(never)]
fn do_while(s: &Stmt, c: &Expr, at: &At<'_>, locals: &mut Locals, b: Draft) -> Result<Draft, Memory>
    requires { Stands at.now.place locals.old }
    ensures made { IfOk result (λ _. locals.new.made.items ≡ locals.old.made.items) }
    ensures stands { IfOk result (λ _. Stands at.now.place locals.new) }
    ensures code { IfOk result (λ r. Grown b r (λ exits. stmt_items
        (within_in at.now.place locals.old.made.items exits) (4 * length b.code.code)
        (DoWhile (stmt_view s.now) (expr_view c.now)))) }
{
    let Draft { code, holes } = b;
    let top = address(&code)?;
    let begun = code.put(Op::Nop, 0)?;
    let Draft {
        code: passed,
        holes: out,
    } = body(s, &at.place, locals, begun)?;
    let more = address(&passed)?;
    let tested = valued(c, &at.place, locals, passed)?;
    let code = close_until(top, more, out.as_slice(), tested)?;
    Ok(Draft { code, holes })
}

/// A `for` behind what it does first.
#[cycle(statement)]
#[inline(never)]
fn for_loop(
    s: &Stmt,
    c: &Option<Expr>,
    next: &Option<Expr>,
    place: &Place<'_>,
    locals: &mut Locals,
    b: Draft,
) -> Result<Draft, Memory>
    requires { Stands place.now locals.old }
    ensures made { IfOk result (λ _. locals.new.made.items ≡ locals.old.made.items) }
    ensures stands { IfOk result (λ _. Stands place.now locals.new) }
    ensures code { IfOk result (λ r. Grown b r (λ exits. for_items
        (within_in place.now locals.old.made.items exits) (4 * length b.code.code)
        (perhaps_view c.now) (perhaps_view next.now) (stmt_view s.now))) }
{
    let Draft { code, holes } = b;
    let begun = code.put(Op::Jump, 0)?;
    let hole = last_cell(&begun)?;
    let start = address(&begun)?;
    let Draft {
        code: passed,
        holes: out,
    } = body(s, place, locals, begun)?;
    let more = address(&passed)?;
    let stepped = step(next, place, locals, passed)?;
    let landed = land(hole, stepped)?;
    let told = perhaps_jump(c, place, locals, landed)?;
    let code = close(told, start, more, out.as_slice())?;
    Ok(Draft { code, holes })
}

/// Statements one behind another.
#[cycle(statement)]
fn statements(
    list: &List<Stmt>,
    at: &At<'_>,
    locals: &mut Locals,
    b: Draft,
) -> Result<Draft, Memory>
    requires { Within at.now.place at.now.since locals.old }
    ensures made { IfOk result (λ _.
        locals.new.made.items ≡ locals.old.made.items ++ slots_made_by (stmts_view list.now)) }
    ensures within { IfOk result (λ _. Within at.now.place at.now.since locals.new) }
    ensures code { IfOk result (λ r. Grown b r (λ exits. stmts_items
        (here_in at.now.place locals.old.made.items at.now.since.made exits)
        (4 * length b.code.code) (stmts_view list.now))) }
{
    let items = list.as_slice();
    let mut grown = b;
    for i in 0..items.len() {
        grown = statement(&items[i], at, locals, grown)?;
    }
    Ok(grown)
}

/// One case: what is done in it, and a jump to the end, which is led when that is known.
#[cycle(statement)]
#[inline(never)]
fn one_case(
    case: &Case,
    at: &At<'_>,
    locals: &mut Locals,
    b: Draft,
) -> Result<(Draft, Hole), Memory>
    requires { Within at.now.place at.now.since locals.old }
    ensures made { IfOk result (λ _. locals.new.made.items ≡ locals.old.made.items) }
    ensures within { IfOk result (λ _. Within at.now.place at.now.since locals.new) }
    ensures code { IfOk result (λ r. Ended b r.0 (r.1 ∷ []) (λ end exits. stmt_items
        (here_in at.now.place locals.old.made.items at.now.since.made exits)
        (4 * length b.code.code) (stmt_view case.now.stmt) ++ jump_to Op.Jump end ∷ [])) }
{
    let done = part(&case.stmt, at, locals, b)?;
    let jumped = done.put(Op::Jump, 0)?;
    let hole = jump_at(&jumped.code)?;
    Ok((jumped, hole))
}

/// SWITCH, its table, and cases one behind another, each with a jump to the end. Beside them stands
/// what closes the switch.
#[cycle(statement)]
#[inline(never)]
fn all_cases(
    cases: &List<Case>,
    at: &At<'_>,
    locals: &mut Locals,
    b: Draft,
) -> Result<(Draft, Cased), Memory>
    requires { Within at.now.place at.now.since locals.old }
    ensures made { IfOk result (λ _. locals.new.made.items ≡ locals.old.made.items) }
    ensures within { IfOk result (λ _. Within at.now.place at.now.since locals.new) }
    ensures cased { IfOk result (λ r. IsCased at.now.place locals.old.made.items at.now.since.made
        (cases_view cases.now) b r.0 r.1) }
{
    let items = cases.as_slice();
    let table = table_at(&b.code)?;
    let mut draft = begin_switch(items, b)?;
    let mut begins = List::new(at.place.alloc);
    let mut ends = List::new(at.place.alloc);
    for i in 0..items.len() {
        begins.push(address(&draft.code)?)?;
        let (next, hole) = one_case(&items[i], at, locals, draft)?;
        ends.push(hole)?;
        draft = next;
    }
    let default = address(&draft.code)?;
    let led = Cased {
        at: table,
        default,
        begins,
        ends,
    };
    Ok((draft, led))
}
