ghost use Rattle.std.specs.Prelude.{◌≡◌, ◌<◌, [], Some, map, option_map, length, slice_get};
ghost use Rattle.std.specs.Prelude.{IfOk, OnOk};
ghost use Rattle.pawn_meaning.specs.View.{body_view, function_view, route_view, slot_view};
ghost use Rattle.types_rules.specs.Groups.{Group as PlainGroup};
ghost use Rattle.types_rules.specs.Functions.{clauses};
ghost use Rattle.types_rules.specs.Programs as spec;
ghost use Rattle.types_rules.specs.Sources.{stated, group_tag};
ghost use Rattle.check_source.specs.AutomataView.{automata_view};
ghost use Rattle.check_source.specs.Update.{updated};
ghost use Rattle.check_source.specs.GroupsView.{group_view, groups_view};
ghost use Rattle.check_source.specs.HeadingView.{heading_view};
ghost use Rattle.check_source.specs.SourceView.{source_view};
ghost use Rattle.check_functions.specs.Own.{AreFirsts};
ghost use Rattle.check_declarations.specs.DoneView.{bodied_view};
ghost use Rattle.check_declarations.specs.Filled.{with_params, with_body, filled};

use super::done_declarations::Bodied;
use super::routes::route;
use check_functions::{Firsts, clauses_of, tag_at};
use check_source::{Automata, Group, Source};
use pawn_base::{List, Memory};
use pawn_meaning::{Body, Function, Route, Slot};
use std::alloc::Global;

/// The route to the bodies of a function, where they have classifiers.
fn dispatch_of(alloc: Global, automata: &Automata, group: &Group) -> Result<Option<Route>, Memory>
    ensures { IfOk result (λ it. option_map route_view it ≡
        spec.dispatch_by (automata_view automata.now) (clauses (group_view group.now))) }
{
    let clauses = clauses_of(alloc, group)?;
    let route = route(alloc, automata, clauses.as_slice())?;
    Ok(route)
}

/// A function without its bodies.
fn function_at(
    alloc: Global,
    source: &Source,
    firsts: &Firsts,
    place: usize,
) -> Result<Function, Memory>
    requires firsts { AreFirsts source.now.tags source.now.fallback.now
        (groups_view source.now.groups) (map heading_view source.now.headings)
        firsts.now.own.items firsts.now.entry }
    requires within { place < length source.now.groups }
    ensures { IfOk result (λ it. (group : PlainGroup) →
        slice_get (groups_view source.now.groups) place ≡ Some group →
        function_view it ≡ spec.function_of (automata_view source.now.automata)
        (group_tag (source_view source.now) (stated (source_view source.now)
        (map heading_view source.now.headings) []) group) group []) }
{
    let group = &source.groups.as_slice()[place];
    let first = firsts.first(source, group.key);
    let tag = tag_at(source, first);
    let dispatch = dispatch_of(alloc, &source.automata, group)?;
    Ok(Function {
        params: List::new(alloc),
        tag,
        dispatch,
        bodies: List::new(alloc),
    })
}

/// The functions of a source by number, without their bodies.
fn bare_functions(alloc: Global, source: &Source, firsts: &Firsts) -> Result<Vec<Function>, Memory>
    requires { AreFirsts source.now.tags source.now.fallback.now
        (groups_view source.now.groups) (map heading_view source.now.headings)
        firsts.now.own.items firsts.now.entry }
    ensures { IfOk result (λ functions. map function_view functions.items ≡
        spec.program_functions (source_view source.now) (stated (source_view source.now)
        (map heading_view source.now.headings) []) 0 (groups_view source.now.groups) []) }
{
    let mut functions = Vec::new(alloc);
    for i in 0..source.groups.as_slice().len() {
        let it = function_at(alloc, source, firsts, i)?;
        functions.push(it)?;
    }
    Ok(functions)
}

/// The slots of parameters, which are those of the first body.
fn set_params(function: &mut Function, params: List<Slot>)
    ensures { function_view function.new ≡
        with_params (map slot_view params) (function_view function.old) }
{
    if function.bodies.is_empty() {
        function.params = params;
    }
}

/// A body more.
fn push_body(function: &mut Function, params: List<Slot>, body: Body) -> Result<(), Memory>
    ensures { OnOk result (function_view function.new ≡
        with_body (map slot_view params) (body_view body) (function_view function.old)) }
{
    set_params(function, params);
    function.bodies.push(body)?;
    Ok(())
}

/// A body more of the function with a number.
fn push_at(
    functions: &mut Vec<Function>,
    number: usize,
    params: List<Slot>,
    body: Body,
) -> Result<(), Memory>
    requires { number < length functions.old.items }
    ensures { OnOk result (map function_view functions.new.items ≡
        updated (map function_view functions.old.items) number
        (with_body (map slot_view params) (body_view body))) }
{
    push_body(&mut functions[number], params, body)?;
    Ok(())
}

/// A body more of the function with its number, where there is that function.
#[tactic(auto, using(crate::proofs::FillLaws::none_pushed))]
fn add_body(functions: &mut Vec<Function>, it: Bodied) -> Result<(), Memory>
    ensures { OnOk result (map function_view functions.new.items ≡
        updated (map function_view functions.old.items) it.number
        (with_body (map slot_view it.params) (body_view it.body))) }
{
    let Bodied {
        number,
        at: _,
        params,
        body,
        returns: _,
    } = it;
    let number = number as usize;
    if number >= functions.len() {
        return Ok(());
    }
    push_at(functions, number, params, body)?;
    Ok(())
}

/// Each body in its function, in the order of the source.
fn fill(functions: &mut Vec<Function>, bodies: Vec<Bodied>) -> Result<(), Memory>
    ensures { OnOk result (map function_view functions.new.items ≡
        filled (map function_view functions.old.items) (map bodied_view bodies.items)) }
{
    for it in bodies {
        add_body(functions, it)?;
    }
    Ok(())
}

/// The functions of a program by number: the parameters of each are those of its first body, its
/// tag is that of its first head (Language Guide, "Functions").
pub fn functions_of(
    alloc: Global,
    source: &Source,
    firsts: &Firsts,
    bodies: Vec<Bodied>,
) -> Result<List<Function>, Memory>
    requires { AreFirsts source.now.tags source.now.fallback.now
        (groups_view source.now.groups) (map heading_view source.now.headings)
        firsts.now.own.items firsts.now.entry }
    ensures { IfOk result (λ list. map function_view list ≡
        spec.program_functions (source_view source.now) (stated (source_view source.now)
        (map heading_view source.now.headings) []) 0 (groups_view source.now.groups)
        (map bodied_view bodies.items)) }
{
    let mut functions = bare_functions(alloc, source, firsts)?;
    fill(&mut functions, bodies)?;
    Ok(List::from_vec(functions))
}
