ghost use Rattle.std.specs.Prelude.{◌≡◌, [], ◌||◌, map, flat_map};
ghost use Rattle.std.specs.List.{list_any};
ghost use Rattle.pawn_tree.specs.View.{param_view};
ghost use Rattle.types_rules.specs.Functions as spec;
ghost use Rattle.types_rules.specs.Headings.{is_enters};
ghost use Rattle.check_source.specs.KeyView.{key_view};
ghost use Rattle.check_source.specs.GroupsView.{group_view, groups_view};
ghost use Rattle.check_source.specs.WrittenView.{written_view};
ghost use Rattle.check_functions.specs.Finds.{Finds};
ghost use Rattle.check_functions.specs.Group.{bodies_and_params, params_by};
ghost use Rattle.check_functions.specs.Mixed.{mixes_by, any_mixed};

use super::bodies::{all_bodies, is_mixed, some_classified};
use super::clauses::all_clauses;
use super::rules::fault_if;
use check_source::{Group, Key, Written, states_of};
use pawn_tree::Param;
use pawn_verdict::CheckFault;
use std::alloc::Global;
use types_rules::HEAD_DIFFERS;

/// Whether the classifier of a body names several automata.
fn body_mixes(it: &Written) -> bool
    ensures { result ≡ mixes_by (written_view it.now).function.states }
{
    match states_of(it.function) {
        None => false,
        Some(states) => is_mixed(states),
    }
}

/// Whether one of some bodies has such a classifier.
fn some_mixed(bodies: &[Written]) -> bool
    ensures { result ≡ any_mixed (map written_view bodies.now) }
{
    for it in bodies {
        if body_mixes(it) {
            return true;
        }
    }
    false
}

/// Whether a function has no parameters by its name.
fn has_none(key: Key) -> bool
    ensures { result ≡ spec.has_no_params (key_view key.entry) }
{
    match key {
        Key::Named(name) => {
            let main: &[u8] = b"main";
            name == main
        }
        Key::Enters(_) => true,
        Key::Operates(_) => false,
        Key::Misshapen => false,
    }
}

/// Whether there are parameters.
#[tactic(auto, using(crate::proofs::GroupLaws::some_params))]
fn has_params(params: &[Param]) -> bool
    ensures { result ≡ spec.has_params (map param_view params.now) }
{
    match params {
        [] => false,
        [_, ..] => true,
    }
}

/// A body with parameters that it must not have.
fn params(it: &Written, none: bool) -> Result<(), CheckFault>
    ensures { Finds (params_by none (written_view it.now)) result }
{
    let breaks = none && has_params(it.function.head.params.as_slice());
    fault_if(breaks, HEAD_DIFFERS, it.at)
}

/// All bodies of a function that has no parameters by its name, or may have them.
fn all_params(bodies: &[Written], none: bool) -> Result<(), CheckFault>
    ensures { Finds (flat_map (params_by none) (map written_view bodies.now)) result }
{
    for it in bodies {
        params(it, none)?;
    }
    Ok(())
}

/// The faults of a function's classifiers together.
fn judge_clauses(alloc: Global, group: &Group) -> Result<(), CheckFault>
    ensures { Finds (spec.clauses_faults (group_view group.now)) result }
{
    let bodies = group.bodies.as_slice();
    if some_mixed(bodies) {
        return Ok(());
    }
    all_clauses(alloc, bodies)
}

/// Whether a function has classifiers or is an entry function.
fn is_classified(group: &Group) -> bool
    ensures { result ≡ list_any spec.has_classifier (group_view group.now).bodies
        || is_enters (group_view group.now).key }
{
    some_classified(group.bodies.as_slice()) || group.key.enters()
}

/// The faults of a function's bodies, each by its classifier.
fn judge_bodies(group: &Group) -> Result<(), CheckFault>
    ensures { Finds (spec.bodies_faults (group_view group.now) [] (group_view group.now).bodies)
        result }
{
    all_bodies(group.bodies.as_slice(), is_classified(group))
}

/// The faults of a function's classifiers (Language Guide, "State classifiers").
///
/// # Errors
///
/// One of these faults, or `Memory`.
#[tactic(auto, using(crate::proofs::FindsLaws::finds))]
pub fn classifiers(alloc: Global, group: &Group) -> Result<(), CheckFault>
    ensures { Finds (spec.classifier_faults (group_view group.now)) result }
{
    judge_bodies(group)?;
    judge_clauses(alloc, group)
}

/// The faults of a function's bodies, apart from their heads.
///
/// # Errors
///
/// One of these faults, or `Memory`.
#[tactic(auto, using(crate::proofs::FindsLaws::finds))]
pub fn group_bodies(alloc: Global, group: &Group) -> Result<(), CheckFault>
    ensures { Finds (bodies_and_params (group_view group.now)) result }
{
    classifiers(alloc, group)?;
    all_params(group.bodies.as_slice(), has_none(group.key))
}

/// The faults of the bodies of functions, apart from their heads: classifiers (42 to 44, 51), and
/// parameters that a function must not have (65).
///
/// # Errors
///
/// One of these faults, or `Memory`.
pub fn all_groups(alloc: Global, groups: &[Group]) -> Result<(), CheckFault>
    ensures { Finds (flat_map bodies_and_params (groups_view groups.now)) result }
{
    for it in groups {
        group_bodies(alloc, it)?;
    }
    Ok(())
}
