ghost use Rattle.std.specs.Prelude.{Some, true, map, option_map, length};
ghost use Rattle.types_rules.specs.Sources.{stated};
ghost use Rattle.check_source.specs.KeyView.{key_view};
ghost use Rattle.check_source.specs.GroupsView.{groups_view, group_view};
ghost use Rattle.check_source.specs.HeadingView.{heading_view};
ghost use Rattle.check_source.specs.SourceView.{source_view};
ghost use Rattle.check_functions.specs.Finds.{Finds};
ghost use Rattle.check_functions.specs.HeadsView.{heads_view};
ghost use Rattle.check_functions.specs.FirstsOf.{AreFirstsOf};
ghost use Rattle.check_functions.specs.Own.{HasNumber};
ghost use Rattle.check_functions.specs.Differ as spec;
ghost use Rattle.check_functions.specs.Differ.{EachOf, PairsOf};
ghost use Rattle.check_functions.specs.EntryForwards.{AtPlace};

use super::against::against;
use super::firsts::{Firsts, own_key};
use super::forwards::find_forwards;
use check_nodes::Head;
use check_source::{Group, Heading, Key, Source};
use pawn_verdict::CheckFault;

/// A heading of the function with this key against the first one.
#[tactic(auto, using(crate::proofs::TellLaws::numbered, crate::proofs::TellLaws::unnumbered))]
fn check_key(
    source: &Source,
    firsts: &Firsts,
    heads: &[Option<Head>],
    key: Key,
    place: usize,
) -> Result<(), CheckFault>
    requires { AreFirstsOf source.now firsts.now }
    ensures { Finds (spec.key_faults (source_view source.now) (stated (source_view source.now)
        (map heading_view source.now.headings) (heads_view heads.now)) place
        (Some (key_view key.entry))) result }
{
    match source.groups.number_of(key) {
        None => Ok(()),
        Some(_) => against(source, heads, firsts.first(source, key), place),
    }
}

/// The same, where a heading is of one function alone.
fn check_own_key(
    source: &Source,
    firsts: &Firsts,
    heads: &[Option<Head>],
    key: Option<Key>,
    place: usize,
) -> Result<(), CheckFault>
    requires { AreFirstsOf source.now firsts.now }
    ensures { Finds (spec.key_faults (source_view source.now) (stated (source_view source.now)
        (map heading_view source.now.headings) (heads_view heads.now)) place
        (option_map key_view key.entry)) result }
{
    match key {
        None => Ok(()),
        Some(key) => check_key(source, firsts, heads, key, place),
    }
}

/// A heading against the first one of the function that it is of alone.
fn check_own(
    source: &Source,
    firsts: &Firsts,
    heads: &[Option<Head>],
    it: &Heading,
    place: usize,
) -> Result<(), CheckFault>
    requires { AreFirstsOf source.now firsts.now }
    ensures { Finds (spec.heading_faults (source_view source.now) (stated (source_view source.now)
        (map heading_view source.now.headings) (heads_view heads.now)) place
        (Some (heading_view it.now))) result }
{
    let key = own_key(&source.tags, source.fallback, it);
    check_own_key(source, firsts, heads, key, place)
}

/// All headings, each against the first one of the function that it is of alone.
fn own_heads(source: &Source, firsts: &Firsts, heads: &[Option<Head>]) -> Result<(), CheckFault>
    requires { AreFirstsOf source.now firsts.now }
    ensures { EachOf (spec.own_faults (source_view source.now) (stated (source_view source.now)
        (map heading_view source.now.headings) (heads_view heads.now)))
        (length (map heading_view source.now.headings)) result }
{
    let headings = source.headings.as_slice();
    for i in 0..headings.len() {
        check_own(source, firsts, heads, &headings[i], i)?;
    }
    Ok(())
}

/// A forward of `entry` against the first heading of an entry function.
fn check_group(
    source: &Source,
    firsts: &Firsts,
    heads: &[Option<Head>],
    group: &Group,
    place: usize,
) -> Result<(), CheckFault>
    requires firsts { AreFirstsOf source.now firsts.now }
    requires known { HasNumber (groups_view source.now.groups) (key_view group.now.key) }
    ensures { Finds (spec.group_faults (source_view source.now) (stated (source_view source.now)
        (map heading_view source.now.headings) (heads_view heads.now)) place
        (Some (group_view group.now))) result }
{
    if !group.key.enters() {
        return Ok(());
    }
    against(source, heads, firsts.first(source, group.key), place)
}

/// A forward of `entry` against the first headings of all entry functions.
fn check_groups(
    source: &Source,
    firsts: &Firsts,
    heads: &[Option<Head>],
    place: usize,
) -> Result<(), CheckFault>
    requires { AreFirstsOf source.now firsts.now }
    ensures { EachOf (spec.forward_faults (source_view source.now) (stated (source_view source.now)
        (map heading_view source.now.headings) (heads_view heads.now)) place true)
        (length (groups_view source.now.groups)) result }
{
    let groups = source.groups.as_slice();
    for n in 0..groups.len() {
        check_group(source, firsts, heads, &groups[n], place)?;
    }
    Ok(())
}

/// The same of a place, where there is one.
fn check_at(
    source: &Source,
    firsts: &Firsts,
    heads: &[Option<Head>],
    place: Option<usize>,
) -> Result<(), CheckFault>
    requires { AreFirstsOf source.now firsts.now }
    ensures { AtPlace (λ i n. spec.forward_faults (source_view source.now)
        (stated (source_view source.now) (map heading_view source.now.headings)
        (heads_view heads.now)) i true n)
        (length (groups_view source.now.groups)) place result }
{
    match place {
        None => Ok(()),
        Some(place) => check_groups(source, firsts, heads, place),
    }
}

/// All forwards of `entry`, each against the first headings of all entry functions. Two of them
/// tell of all, so that it takes two passes over the functions, and not one for each forward.
fn entry_heads(source: &Source, firsts: &Firsts, heads: &[Option<Head>]) -> Result<(), CheckFault>
    requires { AreFirstsOf source.now firsts.now }
    ensures { PairsOf (spec.entry_faults (source_view source.now) (stated (source_view source.now)
        (map heading_view source.now.headings) (heads_view heads.now)))
        (length (map heading_view source.now.headings))
        (length (groups_view source.now.groups)) result }
{
    let forwards = find_forwards(source, heads);
    check_at(source, firsts, heads, forwards.first)?;
    check_at(source, firsts, heads, forwards.other)
}

/// The heads of each function that differ from its first one (65; Language Guide, "Functions", on
/// forward declarations). A head that doesn't stand isn't compared.
///
/// # Errors
///
/// One of these faults.
pub fn head_faults(
    source: &Source,
    firsts: &Firsts,
    heads: &[Option<Head>],
) -> Result<(), CheckFault>
    requires { AreFirstsOf source.now firsts.now }
    ensures { Finds (spec.all_heads (source_view source.now) (stated (source_view source.now)
        (map heading_view source.now.headings) (heads_view heads.now))
        (groups_view source.now.groups)) result }
{
    own_heads(source, firsts, heads)?;
    entry_heads(source, firsts, heads)
}
