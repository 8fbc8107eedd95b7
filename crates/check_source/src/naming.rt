ghost use Rattle.std.specs.Prelude.{◌≡◌, Some, map, slice_get, unwrap_or, false, IfOk};
ghost use Rattle.types_rules.specs.Automata as spec;
ghost use Rattle.check_source.specs.KeyView.{states_view};
ghost use Rattle.check_source.specs.WrittenView.{written_view};
ghost use Rattle.check_source.specs.GroupsView.{groups_view};
ghost use Rattle.check_source.specs.Naming.{bodies_name, group_names, named_at};

use super::groups::Group;
use super::states::states_of;
use super::written::Written;
use pawn_base::Memory;
use pawn_tree::StateName;
use std::alloc::Global;

/// Whether a classifier names states, and is no fallback.
pub fn names_states(states: Option<&[StateName]>) -> bool
    ensures { result ≡ spec.names_states (states_view states.entry) }
{
    match states {
        None => false,
        Some(states) => names_some(states),
    }
}

#[tactic(auto, using(crate::proofs::NamingLaws::some_state))]
fn names_some(states: &[StateName]) -> bool
    ensures { result ≡ spec.names_states (Some states.now) }
{
    match states {
        [] => false,
        [_, ..] => true,
    }
}

/// Whether a body names states.
fn body_names(it: &Written) -> bool
    ensures { result ≡ spec.names_states (written_view it.now).function.states }
{
    names_states(states_of(it.function))
}

/// Whether one of some bodies names states.
fn some_name(bodies: &[Written]) -> bool
    ensures { result ≡ bodies_name (map written_view bodies.now) }
{
    for it in bodies {
        if body_names(it) {
            return true;
        }
    }
    false
}

/// Of each function, whether one of its bodies names states.
pub fn naming(alloc: Global, groups: &[Group]) -> Result<Vec<bool>, Memory>
    ensures { IfOk result (λ naming. naming.items ≡ map group_names (groups_view groups.now)) }
{
    let mut naming = Vec::new(alloc);
    for group in groups {
        naming.push(some_name(group.bodies.as_slice()))?;
    }
    Ok(naming)
}

/// What stands at a number, where one is there.
pub fn at(naming: &[bool], number: Option<u32>) -> bool
    ensures { result ≡ named_at naming.now number }
{
    match number {
        None => false,
        Some(number) => at_number(naming, number as usize),
    }
}

fn at_number(naming: &[bool], number: usize) -> bool
    ensures { result ≡ unwrap_or (slice_get naming.now number) false }
{
    match naming.get(number) {
        None => false,
        Some(it) => *it,
    }
}
