ghost use Rattle.std.specs.Prelude.{◌≡◌, ◌<◌, [], ◌∷◌, ◌++◌, None, map, length, IfOk, OnOk};
ghost use Rattle.types_rules.specs.Groups as spec;
ghost use Rattle.check_source.specs.KeyView.{key_view};
ghost use Rattle.check_source.specs.Update.{updated};
ghost use Rattle.check_source.specs.WrittenView.{written_view};
ghost use Rattle.check_source.specs.GroupsView.{groups_view, group_with};

use super::key::{Key, key_of};
use super::states::states_of;
use super::tables::Tables;
use super::written::Written;
use pawn_base::{List, Memory};
use pawn_tags::TagTable;
use std::alloc::Global;
use std::marker::Model;

/// A function of a source: its key and its bodies in order.
#[derive(Drop)]
pub struct Group<'a> {
    pub key: Key<'a>,
    pub bodies: List<Written<'a>>,
}

/// The functions of a source by their numbers, with a table of their keys. Contracts see the list
/// of them.
#[derive(Drop)]
pub struct Groups<'a> {
    items: Vec<Group<'a>>,
    tables: Tables<'a>,
}

impl<'a> Model for Groups<'a> {
    ghost use Rattle.std.specs.Prelude.{List};
    ghost use Rattle.check_source.specs.declared.groups.Group.{Group};
    ghost use Rattle.check_source.specs.Numbered.{IsNumbered};
    ghost use Rattle.std.specs.Coded.{codes};
    ghost use Rattle.pawn_tree.specs.contracts.declaration.Function as function;

    ghost Value = { List Group };

    ghost coded = { Prim.hlevel (codes, function.the_row.coded) };

    ghost view = { λ groups. groups.items.items };

    ghost invariant = { λ groups. IsNumbered groups.items.items groups.tables };
}

impl<'a> Groups<'a> {
    fn new(alloc: Global) -> Groups<'a>
        ensures { result ≡ [] }
    {
        Groups {
            items: Vec::new(alloc),
            tables: Tables::new(alloc),
        }
    }

    /// The functions in order.
    pub fn as_slice(&self) -> &[Group<'a>]
        ensures { result.now ≡ self.now }
    {
        self.items.as_slice()
    }

    /// The number of the function with a key.
    pub fn number_of(&self, key: Key) -> Option<u32>
        ensures { result ≡ spec.number_of (groups_view self.now) (key_view key.entry) }
    {
        self.tables.find(key)
    }

    /// A body more of a function that is known.
    fn add_body(&mut self, number: usize, it: &Written<'a>) -> Result<(), Memory>
        requires { number < length self.old }
        ensures { OnOk result (self.new ≡ updated self.old number (group_with it.now)) }
    {
        self.items[number].bodies.push(*it)?;
        Ok(())
    }

    /// A function more, with its first body.
    fn push(&mut self, alloc: Global, key: Key<'a>, it: &Written<'a>) -> Result<(), Memory>
        requires { spec.number_of (groups_view self.old) (key_view key) ≡ None }
        ensures { OnOk result (self.new ≡ self.old ++
            record { key = key.entry; bodies = it.now ∷ [] } ∷ []) }
    {
        let Ok(number) = u32::try_from(self.items.len()) else {
            return Err(Memory);
        };
        let mut bodies = List::new(alloc);
        bodies.push(*it)?;
        self.items.reserve(1)?;
        self.tables.insert(key, number)?;
        let Ok(()) = self.items.push(Group { key, bodies }) else {
            unreachable!()
        };
        Ok(())
    }

    /// A body more, of the function with this key.
    fn add(&mut self, alloc: Global, key: Key<'a>, it: &Written<'a>) -> Result<(), Memory>
        ensures { OnOk result (groups_view self.new ≡ spec.with_body
            (groups_view self.old) (key_view key.entry) (written_view it.now)) }
    {
        match self.number_of(key) {
            Some(number) => {
                self.add_body(number as usize, it)?;
                Ok(())
            }
            None => {
                self.push(alloc, key, it)?;
                Ok(())
            }
        }
    }
}

/// The key of a body.
pub fn body_key<'a>(tags: &TagTable, fallback: &'a [u8], it: &Written<'a>) -> Key<'a>
    ensures { key_view result ≡ spec.body_key tags.now fallback.now (written_view it.now) }
{
    key_of(tags, fallback, &it.function.head, states_of(it.function))
}

/// The functions of a source by its bodies in order, with the names of tags and the automaton of an
/// entry function's fallback (Language Guide, "Functions", "Automata").
///
/// # Errors
///
/// `Memory` for want of memory.
#[tactic(auto, unfolding(types_rules::specs::Groups::grouped))]
pub fn group_bodies<'a>(
    alloc: Global,
    tags: &TagTable,
    fallback: &'a [u8],
    bodies: &[Written<'a>],
) -> Result<Groups<'a>, Memory>
    ensures { IfOk result (λ groups. groups_view groups ≡
        spec.grouped tags.now fallback.now [] (map written_view bodies.now)) }
{
    let mut groups = Groups::new(alloc);
    for it in bodies {
        let key = body_key(tags, fallback, it);
        groups.add(alloc, key, it)?;
    }
    Ok(groups)
}
