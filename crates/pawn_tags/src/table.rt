ghost use Rattle.std.specs.Prelude.{◌≡◌, ◌-◌, ◌^◌, ◌<◌, Some, length, option_map, slice_get, IfOk};
ghost use Rattle.std.specs.Prelude.{OnOk, OnErr};
ghost use Rattle.pawn_base.specs.Among.{with_name};
ghost use Rattle.pawn_tags.specs.Matching as matching;
ghost use Rattle.pawn_tags.specs.Tags.{first_names, number_of, is_strong};
ghost use Rattle.pawn_tags.specs.Tags as tags;

use pawn_base::{Memory, Names};
use std::alloc::Global;
use std::marker::Model;

/// The number of `_`, which is no tag.
pub const UNTAGGED: u32 = 0;

/// The number of `bool`, the tag of truth values.
pub const TRUTH_TAG: u32 = 1;

/// The names of tags, numbered in the order in which they were first mentioned (Language Guide,
/// "Tag names"). Contracts see the list of names: `_` first, `bool` next, then the others.
#[derive(Drop)]
pub struct TagTable {
    names: Names,
}

impl Model for TagTable {
    ghost use Rattle.std.specs.Prelude.{◌^◌, ◌<◌, List, ℕ, length};
    ghost use Rattle.std.specs.Coded.{coded_list, coded_ℕ};

    ghost Value = { List (List ℕ) };

    ghost coded = { coded_list (coded_list coded_ℕ) };

    ghost view = { λ table. table.names };

    ghost invariant = { λ table. length table.names < 2 ^ 32 };
}

impl TagTable {
    /// A table in which `_` has the number 0 and `bool` the number 1.
    pub fn new(alloc: Global) -> Result<TagTable, Memory>
        ensures { IfOk result (λ table. table ≡ first_names) }
    {
        let mut names = Names::new(alloc);
        names.push(alloc, b"_")?;
        names.push(alloc, b"bool")?;
        Ok(TagTable { names })
    }

    /// How many names were mentioned.
    pub fn len(&self) -> usize
        ensures { result ≡ length self.now }
    {
        self.names.len()
    }

    /// The number of a name, which is the next one where the name is new.
    ///
    /// # Errors
    ///
    /// `Memory` for want of memory; the table is as it was.
    #[tactic(auto, using(crate::proofs::NumberLaws::mentioned))]
    pub fn mention(&mut self, alloc: Global, name: &[u8]) -> Result<u32, Memory>
        requires { length self.old < 2 ^ 32 - 1 }
        ensures number { IfOk result (λ number. number_of self.new name.now ≡ Some number) }
        ensures names { OnOk result (self.new ≡ with_name self.old name.now) }
        ensures err { OnErr result (self.new ≡ self.old) }
    {
        let _is_new = self.names.add(alloc, name)?;
        let place = self.names.place(name).unwrap();
        Ok(place as u32)
    }

    /// The number of a name, where it was mentioned.
    pub fn number(&self, name: &[u8]) -> Option<u32>
        ensures { result ≡ number_of self.now name.now }
    {
        match self.names.place(name) {
            None => None,
            Some(place) => Some(place as u32),
        }
    }

    /// The name with a number, where it was given out.
    pub fn name(&self, number: u32) -> Option<&[u8]>
        ensures { option_map (λ name. name.now) result ≡ slice_get self.now number }
    {
        self.names.get(number as usize)
    }

    /// Whether a tag is strong: its name begins with a capital letter. A number that wasn't given
    /// out has no name.
    pub fn strong(&self, number: u32) -> bool
        ensures { result ≡ is_strong self.now number }
    {
        match self.name(number) {
            None => false,
            Some(name) => begins_with_capital(name),
        }
    }
}

/// Whether a name begins with a capital letter.
fn begins_with_capital(name: &[u8]) -> bool
    ensures { result ≡ tags.begins_with_capital name.now }
{
    match name.first() {
        None => false,
        Some(letter) => letter.is_ascii_uppercase(),
    }
}

/// Whether one formal tag takes the actual one.
fn takes(table: &TagTable, formal: u32, actual: u32) -> bool
    ensures { result ≡ matching.takes table.now formal actual }
{
    formal == actual || formal == UNTAGGED && !table.strong(actual)
}

/// Whether a value of the actual tag may stand where one of the formal tags is wanted (Language
/// Guide, "Tag names"). `_` takes each weak tag, and each other tag itself alone.
pub fn matches(table: &TagTable, formal: &[u32], actual: u32) -> bool
    ensures { result ≡ matching.matches table.now formal.now actual }
{
    for tag in formal {
        if takes(table, *tag, actual) {
            return true;
        }
    }
    false
}
