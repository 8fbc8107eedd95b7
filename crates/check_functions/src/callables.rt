ghost use Rattle.std.specs.Prelude.{◌≡◌, ◌<◌, Some, [], map, suc, length, slice_get, if◌then◌else◌};
ghost use Rattle.std.specs.Prelude.{IfOk};
ghost use Rattle.types_rules.specs.Groups.{Group as PlainGroup};
ghost use Rattle.types_rules.specs.Headings as headings;
ghost use Rattle.types_rules.specs.Sources as spec;
ghost use Rattle.check_nodes.specs.ContextView.{callable_view};
ghost use Rattle.check_source.specs.GroupsView.{groups_view};
ghost use Rattle.check_source.specs.HeadingView.{heading_view, role_view};
ghost use Rattle.check_source.specs.SourceView.{source_view};
ghost use Rattle.check_functions.specs.FirstsOf.{AreFirstsOf};
ghost use Rattle.check_functions.specs.HeadsView.{heads_view};
ghost use Rattle.check_functions.specs.Own.{AreFirsts};

use super::firsts::Firsts;
use super::stated::callable_at;
use check_nodes::{Callable, Head};
use check_source::{Heading, Role, Source};
use pawn_base::{List, Memory};
use pawn_tree::HeadName;
use std::alloc::Global;

/// The number of what stands at a place.
pub fn told(place: usize) -> Result<u32, Memory>
    ensures { IfOk result (λ number. number ≡ place) }
{
    match u32::try_from(place) {
        Ok(number) => Ok(number),
        Err(_) => Err(Memory),
    }
}

/// A function with its tag and head.
fn function_at(
    alloc: Global,
    source: &Source,
    firsts: &Firsts,
    heads: &[Option<Head>],
    place: usize,
) -> Result<Callable, Memory>
    requires firsts { AreFirstsOf source.now firsts.now }
    requires within { place < length source.now.groups }
    ensures { IfOk result (λ it. (group : PlainGroup) →
        slice_get (groups_view source.now.groups) place ≡ Some group →
        callable_view it ≡ record {
          number = place;
          tag = spec.group_tag (source_view source.now) (spec.stated (source_view source.now)
              (map heading_view source.now.headings) (heads_view heads.now)) group;
          head = spec.group_head (source_view source.now) (spec.stated (source_view source.now)
              (map heading_view source.now.headings) (heads_view heads.now)) group;
        }) }
{
    let number = told(place)?;
    let group = &source.groups.as_slice()[place];
    let first = firsts.first(source, group.key);
    let it = callable_at(alloc, source, heads, number, first)?;
    Ok(it)
}

/// The functions of a source by number, each with its tag and its head, where that is known.
///
/// # Errors
///
/// `Memory` for want of memory.
pub fn functions(
    alloc: Global,
    source: &Source,
    firsts: &Firsts,
    heads: &[Option<Head>],
) -> Result<List<Callable>, Memory>
    requires { AreFirsts source.now.tags source.now.fallback.now
        (groups_view source.now.groups) (map heading_view source.now.headings)
        firsts.now.own.items firsts.now.entry }
    ensures { IfOk result (λ list. map callable_view list ≡
        spec.functions_from (source_view source.now) 0 (spec.stated (source_view source.now)
        (map heading_view source.now.headings) (heads_view heads.now))
        (groups_view source.now.groups)) }
{
    let mut list = List::new(alloc);
    for i in 0..source.groups.as_slice().len() {
        let it = function_at(alloc, source, firsts, heads, i)?;
        list.push(it)?;
    }
    Ok(list)
}

/// Whether a heading is a native's.
pub fn is_native(role: Role) -> bool
    ensures { result ≡ spec.is_native (role_view role) }
{
    match role {
        Role::Native => true,
        Role::Forward => false,
        Role::Body => false,
    }
}

/// The name of a heading; an operator has none.
pub fn heading_name<'a>(name: &'a HeadName) -> &'a [u8]
    ensures { result.now ≡ spec.name_of name.now }
{
    match name {
        HeadName::Name(name) => name.bytes.as_slice(),
        HeadName::Operator(..) => b"",
    }
}

/// Whether some body calls a heading's name.
pub fn is_called(source: &Source, it: &Heading) -> bool
    ensures { result ≡ spec.is_called (source_view source.now) (heading_view it.now) }
{
    source.called.contains(heading_name(&it.head.name))
}

/// The number of the next native behind one.
fn behind(number: u32, is_called: bool) -> Result<u32, Memory>
    ensures { IfOk result (λ next. next ≡ if is_called then suc number else number) }
{
    if !is_called {
        return Ok(number);
    }
    match number.checked_add(1) {
        None => Err(Memory),
        Some(next) => Ok(next),
    }
}

/// The natives of a source in order of declaration, each with its number among those that are
/// called.
///
/// # Errors
///
/// `Memory` for want of memory.
pub fn natives(
    alloc: Global,
    source: &Source,
    heads: &[Option<Head>],
) -> Result<List<Callable>, Memory>
    ensures { IfOk result (λ list. map callable_view list ≡
        spec.natives_from (source_view source.now) 0 (spec.natives_in (source_view source.now)
        (spec.stated (source_view source.now) (map heading_view source.now.headings)
        (heads_view heads.now)))) }
{
    let headings = source.headings.as_slice();
    let mut list = List::new(alloc);
    let mut number = 0u32;
    for i in 0..headings.len() {
        let it = &headings[i];
        if !is_native(it.role) {
            continue;
        }
        let place = told(i)?;
        let native = callable_at(alloc, source, heads, number, Some(place))?;
        list.push(native)?;
        let next = behind(number, is_called(source, it))?;
        number = next;
    }
    Ok(list)
}
