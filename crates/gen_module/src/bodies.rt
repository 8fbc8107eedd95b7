ghost use Rattle.std.specs.Prelude.{◌≡◌, ◌*◌, [], length, map, IfOk};
ghost use Rattle.pawn_meaning.specs.View.{body_view, program_view, slot_view, stmt_view};
ghost use Rattle.gen_sim.specs.Pieces.{total, objects_from};
ghost use Rattle.gen_laws.specs.StmtCode.{stmt_items};
ghost use Rattle.gen_laws.specs.BodyCode.{end_code, body_items, single_items};
ghost use Rattle.gen_laws.specs.RouteCode.{bodies_items, body_begin};
ghost use Rattle.gen_expr.specs.Built.{with_items};
ghost use Rattle.gen_module.specs.Starts.{Finds};
ghost use Rattle.gen_stmt.specs.Keeps.{AreObjects};
ghost use Rattle.gen_module.specs.First.{first_here};
ghost use Rattle.gen_module.specs.Source.{IsSource, program_of};

use super::source::Source;
use amx_ops::Op;
use gen_expr::Builder;
use gen_expr::operators::two;
use gen_expr::put::{address, count_of};
use gen_stmt::draft::Draft;
use gen_stmt::exits::lead_out;
use gen_stmt::goes_on::never_goes_on;
use gen_stmt::locals::Locals;
use gen_stmt::place::{At, Place};
use gen_stmt::statement::statement;
use pawn_base::Memory;
use pawn_meaning::{Body, Slot, Stmt};

/// The statement of a body. No loop is around it, so it has no jump to an exit.
fn body_statement(s: &Stmt, place: &Place<'_>, code: Builder) -> Result<Builder, Memory>
    requires objects { AreObjects place.now }
    requires automata { place.now.automata ≡ total
        (objects_from 0 (program_view place.now.program.now).objects) }
    ensures { IfOk result (λ r. r ≡ with_items
        (stmt_items (first_here place.now) (4 * length code.code) (stmt_view s.now)) code) }
{
    let mut locals = Locals::new(place)?;
    let since = locals.mark();
    let begun = Draft::new(place.alloc, code);
    let at = At {
        place: *place,
        since,
    };
    let done = statement(s, &at, &mut locals, begun)?;
    let Draft { code, holes } = done;
    Ok(lead_out(holes.as_slice(), 0, 0, code))
}

/// The end of a body: its value is 0, where control comes there.
fn end(never: bool, b: Builder) -> Result<Builder, Memory>
    ensures { IfOk result (λ r. r ≡ with_items (end_code never) b) }
{
    if never {
        b.put(Op::Retn, 0)
    } else {
        two(Op::ZeroPri, Op::Retn, b)
    }
}

/// A body: its statement, and its end.
pub(crate) fn body(
    body: &Body,
    params: &[Slot],
    source: &Source<'_>,
    b: Builder,
) -> Result<Builder, Memory>
    requires { IsSource source.now }
    ensures { IfOk result (λ r. r ≡ with_items (body_items (program_of source.now)
        (map slot_view params.now) (4 * length b.code) (body_view body.now)) b) }
{
    let place = Place {
        alloc: source.alloc,
        program: source.program,
        slots: body.slots.as_slice(),
        params: count_of(params.len())?,
        objects: source.places.objects.as_slice(),
        automata: source.places.cells,
    };
    let done = body_statement(&body.stmt, &place, b)?;
    let ended = end(never_goes_on(&body.stmt), done)?;
    Ok(ended)
}

/// A function without a route: PROC, and its body.
pub(crate) fn single(
    one: &Body,
    params: &[Slot],
    source: &Source<'_>,
    b: Builder,
) -> Result<Builder, Memory>
    requires { IsSource source.now }
    ensures { IfOk result (λ r. r ≡ with_items (single_items (program_of source.now)
        (map slot_view params.now) (4 * length b.code) (body_view one.now)) b) }
{
    let begun = b.put(Op::Proc, 0)?;
    let done = body(one, params, source, begun)?;
    Ok(done)
}

/// Bodies one behind another, with the addresses at which they begin.
pub(crate) fn bodies(
    bodies: &[Body],
    params: &[Slot],
    source: &Source<'_>,
    b: Builder,
) -> Result<(Builder, Vec<i32>), Memory>
    requires { IsSource source.now }
    ensures code { IfOk result (λ it. it.0 ≡ with_items (bodies_items (program_of source.now)
        (map slot_view params.now) (4 * length b.code) (map body_view bodies.now)) b) }
    ensures starts { IfOk result (λ it. Finds (body_begin (program_of source.now)
        (map slot_view params.now) (4 * length b.code) (map body_view bodies.now)) it.1.items) }
{
    let mut starts = Vec::new(source.alloc);
    let mut grown = b;
    for one in bodies {
        let begin = address(&grown)?;
        starts.push(begin)?;
        grown = body(one, params, source, grown)?;
    }
    Ok((grown, starts))
}
