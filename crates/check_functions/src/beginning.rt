ghost use Rattle.std.specs.Prelude.{◌≡◌, [], ◌∷◌, map, find, IfOk, OnOk};
ghost use Rattle.std.specs.Option.{option_copied};
ghost use Rattle.types_rules.specs.Scope as means;
ghost use Rattle.types_rules.specs.Headings as headings;
ghost use Rattle.types_rules.specs.Sources as spec;
ghost use Rattle.check_nodes.specs.MeaningView.{meaning_view};
ghost use Rattle.check_source.specs.KeyView.{key_view};
ghost use Rattle.check_source.specs.GroupsView.{groups_view};
ghost use Rattle.check_source.specs.declared.groups.Group.{Group as HeldGroup};
ghost use Rattle.check_nodes.specs.Scopes.{nothing_declared, scope_view};
ghost use Rattle.check_source.specs.HeadingView.{heading_view, role_view};
ghost use Rattle.check_source.specs.SourceView.{source_view};
ghost use Rattle.check_functions.specs.Declares.{Declares, forward_by, function_by, entering_by};
ghost use Rattle.check_functions.specs.FirstsOf.{AreFirstsOf};
ghost use Rattle.check_functions.specs.Own.{AreFirsts};

use super::callables::{heading_name, is_native, told};
use super::firsts::Firsts;
use super::stated::tag_at;
use check_nodes::{Meaning, Scopes, Sight};
use check_source::{Group, Heading, Key, Role, Source};
use names_sight::tag_number;
use pawn_base::Memory;
use std::alloc::Global;

/// A name that means this.
#[tactic(auto, using(crate::proofs::DeclaresLaws::declared))]
fn declare<'a>(scopes: &mut Scopes<'a>, name: &'a [u8], means: Meaning) -> Result<(), Memory>
    ensures { OnOk result (Declares scopes.old scopes.new
        (record { name = name.now; means = meaning_view means } ∷ [])) }
{
    scopes.declare(name, Sight::Means(means))?;
    Ok(())
}

/// A forward takes its name.
#[tactic(auto, using(crate::proofs::DeclaresLaws::nothing_more))]
fn declare_forward<'a>(scopes: &mut Scopes<'a>, it: &Heading<'a>) -> Result<(), Memory>
    ensures { OnOk result (Declares scopes.old scopes.new
        (forward_by (heading_view it.now) (role_view it.now.role))) }
{
    match it.role {
        Role::Native => Ok(()),
        Role::Forward => {
            declare(scopes, heading_name(&it.head.name), Meaning::Taken)?;
            Ok(())
        }
        Role::Body => Ok(()),
    }
}

/// The name of a function; an operator has none, and entry functions have one together.
#[tactic(auto, using(crate::proofs::DeclaresLaws::nothing_more))]
fn declare_function<'a>(
    scopes: &mut Scopes<'a>,
    key: Key<'a>,
    number: u32,
    tag: u32,
) -> Result<(), Memory>
    ensures { OnOk result (Declares scopes.old scopes.new
        (function_by number tag (key_view key.entry))) }
{
    match key {
        Key::Named(name) => {
            declare(scopes, name, Meaning::Function(number, tag))?;
            Ok(())
        }
        Key::Operates(_) => Ok(()),
        Key::Enters(_) => Ok(()),
        Key::Misshapen => Ok(()),
    }
}

/// The names that forwards take.
fn declare_forwards<'a>(scopes: &mut Scopes<'a>, source: &Source<'a>) -> Result<(), Memory>
    ensures { OnOk result (Declares scopes.old scopes.new
        (spec.forward_entries (source_view source.now))) }
{
    let headings = source.headings.as_slice();
    for i in 0..headings.len() {
        declare_forward(scopes, &headings[i])?;
    }
    Ok(())
}

/// The name of a native.
fn declare_native<'a>(
    scopes: &mut Scopes<'a>,
    source: &Source<'a>,
    it: &Heading<'a>,
    number: u32,
) -> Result<(), Memory>
    ensures { OnOk result (Declares scopes.old scopes.new (spec.entry_for (source_view source.now)
        (spec.name_of it.now.head.now.name) (means.Native number
        (spec.tag_of_head (source_view source.now) (heading_view it.now).head)))) }
{
    let tag = tag_number(&source.tags, it.head.tag.as_ref());
    declare(
        scopes,
        heading_name(&it.head.name),
        Meaning::Native(number, tag),
    )?;
    Ok(())
}

/// The names of natives.
fn declare_natives<'a>(scopes: &mut Scopes<'a>, source: &Source<'a>) -> Result<(), Memory>
    ensures { OnOk result (Declares scopes.old scopes.new
        (spec.native_entries (source_view source.now) 0 (spec.natives_in (source_view source.now)
        (spec.stated (source_view source.now) (map heading_view source.now.headings) [])))) }
{
    let headings = source.headings.as_slice();
    let mut number = 0u32;
    for i in 0..headings.len() {
        let it = &headings[i];
        if !is_native(it.role) {
            continue;
        }
        declare_native(scopes, source, it, number)?;
        let Some(next) = number.checked_add(1) else {
            return Err(Memory);
        };
        number = next;
    }
    Ok(())
}

/// The names of functions.
fn declare_functions<'a>(
    scopes: &mut Scopes<'a>,
    source: &Source<'a>,
    firsts: &Firsts,
) -> Result<(), Memory>
    requires { AreFirstsOf source.now firsts.now }
    ensures { OnOk result (Declares scopes.old scopes.new
        (spec.function_entries (source_view source.now) 0 (spec.stated (source_view source.now)
        (map heading_view source.now.headings) []) (groups_view source.now.groups))) }
{
    let groups = source.groups.as_slice();
    for i in 0..groups.len() {
        let number = told(i)?;
        let group = &groups[i];
        let first = firsts.first(source, group.key);
        let tag = tag_at(source, first);
        declare_function(scopes, group.key, number, tag)?;
    }
    Ok(())
}

/// The first entry function among functions.
fn first_entering<'s, 'a>(groups: &'s [Group<'a>]) -> Option<&'s Group<'a>>
    ensures { option_copied result ≡
        find (λ (group : HeldGroup). headings.is_enters (key_view group.key)) groups.now }
{
    groups.iter().find(|group| group.key.enters())
}

/// The tag of what the first entry function gives, where there is one.
fn entering_tag(source: &Source, firsts: &Firsts) -> Option<u32>
    requires { AreFirstsOf source.now firsts.now }
    ensures { result ≡ spec.entering_tag (source_view source.now) (spec.stated
        (source_view source.now) (map heading_view source.now.headings) []) }
{
    match first_entering(source.groups.as_slice()) {
        None => None,
        Some(group) => {
            let first = firsts.first(source, group.key);
            Some(tag_at(source, first))
        }
    }
}

/// The name `entry`, where a function has it.
#[tactic(auto, using(crate::proofs::DeclaresLaws::nothing_more))]
fn declare_entry(scopes: &mut Scopes, tag: Option<u32>) -> Result<(), Memory>
    ensures { OnOk result (Declares scopes.old scopes.new (entering_by tag)) }
{
    match tag {
        None => Ok(()),
        Some(tag) => {
            declare(scopes, b"entry", Meaning::Entering(tag))?;
            Ok(())
        }
    }
}

/// The names that are known everywhere in a source, where none is declared yet.
#[tactic(auto, using(crate::proofs::DeclaresLaws::four))]
fn declare_all<'a>(
    scopes: &mut Scopes<'a>,
    source: &Source<'a>,
    firsts: &Firsts,
) -> Result<(), Memory>
    requires firsts { AreFirstsOf source.now firsts.now }
    requires empty { scopes.old ≡ nothing_declared }
    ensures { OnOk result (scope_view scopes.new ≡
        (spec.beginning (source_view source.now)).scope) }
{
    declare_forwards(scopes, source)?;
    declare_natives(scopes, source)?;
    declare_functions(scopes, source, firsts)?;
    declare_entry(scopes, entering_tag(source, firsts))
}

/// The names that are known everywhere in a source.
///
/// # Errors
///
/// `Memory` for want of memory.
pub fn begin<'a>(alloc: Global, source: &Source<'a>, firsts: &Firsts) -> Result<Scopes<'a>, Memory>
    requires { AreFirsts source.now.tags source.now.fallback.now
        (groups_view source.now.groups) (map heading_view source.now.headings)
        firsts.now.own.items firsts.now.entry }
    ensures { IfOk result (λ scopes. scope_view scopes ≡
        (spec.beginning (source_view source.now)).scope) }
{
    let mut scopes = Scopes::new(alloc);
    declare_all(&mut scopes, source, firsts)?;
    Ok(scopes)
}
