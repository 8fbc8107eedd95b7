ghost use Rattle.std.specs.Prelude.{◌≡◌, length, map, IfOk, OnOk};
ghost use Rattle.pawn_tree.specs.View.{item_view};
ghost use Rattle.types_rules.specs.Enums as spec;
ghost use Rattle.check_nodes.specs.PartAnswers.{Judged, PartAnswers};
ghost use Rattle.check_nodes.specs.ContextView.{around_view};
ghost use Rattle.check_nodes.specs.Scopes.{scope_view, without};
ghost use Rattle.check_expressions.specs.JudgedView.{judged_view};
ghost use Rattle.check_heads.specs.Counting.{Told, counted};

use super::counting::{Counting, Progress};
use super::items::{declare_item, item_rule, value_means};
use super::meanings::declare_sight;
use super::passes::{all_parts, with_part};
use check_expressions::judge_maybe;
use check_nodes::{Context, PartFault, Scopes};
use pawn_base::{List, Memory};
use pawn_tree::{At, Item, Name};
use std::alloc::Global;

/// The constants of an enumeration with its token and its tag.
#[derive(Clone, Copy)]
struct Items<'a> {
    at: At,
    tag: u32,
    items: &'a [Item],
}

// ---- the expressions in constants

/// The expressions in constants, each of which is known to those behind it, and stays declared.
fn judge_items<'a>(
    alloc: Global,
    cx: &Context,
    scopes: &mut Scopes<'a>,
    them: Items<'a>,
) -> Result<(), PartFault>
    ensures verdict { PartAnswers judged_view (spec.items_parts
        (around_view cx.now) them.entry.at them.entry.tag (spec.nothing_counted
        (scope_view scopes.old)) (map item_view them.entry.items.now)) result }
    ensures scope { Judged result (without (length them.entry.items.now) scopes.new ≡ scopes.old) }
{
    let Items { at, tag, items } = them;
    let mut fell = false;
    let mut next = Some(0);
    for i in 0..items.len() {
        let item = &items[i];
        let part = judge_maybe(alloc, cx, scopes, &item.value);
        fell = with_part(fell, part)?;
        next = declare_item(alloc, cx, scopes, at, tag, next, item)?;
    }
    all_parts(fell)
}

// ---- what an enumeration is

/// Constants, each of which is known to those behind it.
fn items_in<'a>(
    alloc: Global,
    cx: &Context,
    scopes: &mut Scopes<'a>,
    them: Items<'a>,
) -> Result<Counting, PartFault>
    ensures verdict { Told (spec.items_rule (around_view cx.now) them.entry.at them.entry.tag
        (spec.nothing_counted (scope_view scopes.old))
        (map item_view them.entry.items.now)) result }
    ensures scope { IfOk result (λ it. counted (scope_view scopes.new) it.next ≡ spec.behind_items
        (around_view cx.now) them.entry.at them.entry.tag (spec.nothing_counted
        (scope_view scopes.old)) (map item_view them.entry.items.now)) }
{
    let Items { at, tag, items } = them;
    let mut done = Progress::nothing(alloc);
    let mut next = Some(0);
    for i in 0..items.len() {
        let item = &items[i];
        let warned = item_rule(alloc, cx, scopes, at, &item.value);
        done = done.then(warned)?;
        next = declare_item(alloc, cx, scopes, at, tag, next, item)?;
    }
    Ok(Counting { done, next })
}

/// The name of an enumeration is declared, where it has one.
fn declare_name<'a>(
    scopes: &mut Scopes<'a>,
    name: &'a Option<Name>,
    tag: u32,
    next: Option<i32>,
) -> Result<(), Memory>
    ensures { OnOk result (scope_view scopes.new
        ≡ spec.with_enum_name name.now tag (counted (scope_view scopes.old) next)) }
{
    match name {
        None => Ok(()),
        Some(name) => declare_sight(scopes, name.bytes.as_slice(), value_means(tag, next)),
    }
}

/// Constants with the name behind them.
fn enum_in<'a>(
    alloc: Global,
    cx: &Context,
    scopes: &mut Scopes<'a>,
    name: &'a Option<Name>,
    them: Items<'a>,
) -> Result<List<At>, PartFault>
    ensures verdict { PartAnswers (λ warned. warned) (spec.items_rule
        (around_view cx.now) them.entry.at them.entry.tag (spec.nothing_counted
        (scope_view scopes.old)) (map item_view them.entry.items.now)) result }
    ensures scope { Judged result (scope_view scopes.new ≡ spec.behind_enum (around_view cx.now)
        (scope_view scopes.old) them.entry.at them.entry.tag name.now
        (map item_view them.entry.items.now)) }
{
    let it = items_in(alloc, cx, scopes, them)?;
    declare_name(scopes, name, them.tag, it.next)?;
    it.done.all()
}

/// An enumeration, which stays declared (Language Guide, "Constants", "Enumerations"), and what it
/// warns of.
///
/// # Errors
///
/// 57 for a value that is no constant; what breaks a rule in a value, and `Fallen` where one names
/// what doesn't stand.
pub fn enumeration<'a>(
    alloc: Global,
    cx: &Context,
    scopes: &mut Scopes<'a>,
    at: At,
    tag: u32,
    name: &'a Option<Name>,
    items: &'a [Item],
) -> Result<List<At>, PartFault>
    ensures verdict { PartAnswers (λ warned. warned) (spec.enum_rule (around_view cx.now)
        (scope_view scopes.old) at tag (map item_view items.now)) result }
    ensures scope { Judged result (scope_view scopes.new ≡ spec.behind_enum (around_view cx.now)
        (scope_view scopes.old) at tag name.now (map item_view items.now)) }
{
    let them = Items { at, tag, items };
    let judged = judge_items(alloc, cx, scopes, them);
    scopes.forget(items.len());
    match judged {
        Ok(()) => enum_in(alloc, cx, scopes, name, them),
        Err(PartFault::Fallen) => enum_in(alloc, cx, scopes, name, them),
        Err(PartFault::Source { kind, place }) => Err(PartFault::Source { kind, place }),
        Err(PartFault::Memory) => Err(PartFault::Memory),
    }
}

// ---- the path alone

/// Constants are declared; gives the value of the next one, where it is known.
fn declare_items<'a>(
    alloc: Global,
    cx: &Context,
    scopes: &mut Scopes<'a>,
    them: Items<'a>,
) -> Result<Option<i32>, Memory>
    ensures { IfOk result (λ next. counted (scope_view scopes.new) next ≡ spec.behind_items
        (around_view cx.now) them.entry.at them.entry.tag (spec.nothing_counted
        (scope_view scopes.old)) (map item_view them.entry.items.now)) }
{
    let Items { at, tag, items } = them;
    let mut next = Some(0);
    for i in 0..items.len() {
        let item = &items[i];
        next = declare_item(alloc, cx, scopes, at, tag, next, item)?;
    }
    Ok(next)
}

/// An enumeration is declared, whether it stands or not.
///
/// # Errors
///
/// `Memory` for want of memory.
pub fn declare_enum<'a>(
    alloc: Global,
    cx: &Context,
    scopes: &mut Scopes<'a>,
    at: At,
    tag: u32,
    name: &'a Option<Name>,
    items: &'a [Item],
) -> Result<(), Memory>
    ensures { OnOk result (scope_view scopes.new ≡ spec.behind_enum (around_view cx.now)
        (scope_view scopes.old) at tag name.now (map item_view items.now)) }
{
    let next = declare_items(alloc, cx, scopes, Items { at, tag, items })?;
    declare_name(scopes, name, tag, next)
}
