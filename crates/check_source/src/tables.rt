ghost use Rattle.std.specs.Prelude.{◌≡◌, None, Some, if◌then◌else◌, List as ListOf, ℕ, OnOk, OnErr};
ghost use Rattle.std.specs.Str.{bytes_eq};
ghost use Rattle.types_rules.specs.Keys.{Key as PlainKey, same_key};
ghost use Rattle.check_source.specs.KeyView.{key_view};
ghost use Rattle.check_source.specs.Found.{found_in, stands_at};

use super::key::Key;
use indexmap::IndexMap;
use pawn_base::Memory;
use pawn_tags::Signature;
use std::alloc::Global;

/// Numbers of keys.
#[derive(Drop)]
pub struct Tables<'a> {
    named: IndexMap<&'a [u8], u32>,
    operators: IndexMap<Signature, u32>,
    entering: IndexMap<&'a [u8], u32>,
}

/// A name has a number.
fn put<'a>(table: &mut IndexMap<&'a [u8], u32>, name: &'a [u8], number: u32) -> Result<(), Memory>
    ensures ok { OnOk result ((other : ListOf ℕ) → stands_at other table.new.entries ≡
        if bytes_eq other name.now then Some number else stands_at other table.old.entries) }
    ensures err { OnErr result (table.new.entries ≡ table.old.entries) }
{
    let Ok(_before) = table.insert(name, number) else {
        return Err(Memory);
    };
    Ok(())
}

impl<'a> Tables<'a> {
    pub fn new(alloc: Global) -> Tables<'a>
        ensures { (key : PlainKey) → found_in result key ≡ None }
    {
        Tables {
            named: IndexMap::new(alloc),
            operators: IndexMap::new(alloc),
            entering: IndexMap::new(alloc),
        }
    }

    /// The number of a key.
    pub fn find(&self, key: Key) -> Option<u32>
        ensures { result ≡ found_in self.now (key_view key.entry) }
    {
        match key {
            Key::Named(name) => self.named.get(name).copied(),
            Key::Operates(it) => self.operators.get(&it).copied(),
            Key::Enters(name) => self.entering.get(name).copied(),
            Key::Misshapen => None,
        }
    }

    /// A key has a number; a head that no operator may have is found by none.
    pub fn insert(&mut self, key: Key<'a>, number: u32) -> Result<(), Memory>
        ensures ok { OnOk result ((other : PlainKey) → found_in self.new other ≡
            if same_key (key_view key.entry) other then Some number else found_in self.old other) }
        ensures err { OnErr result ((other : PlainKey) →
            found_in self.new other ≡ found_in self.old other) }
    {
        match key {
            Key::Named(name) => {
                put(&mut self.named, name, number)?;
                Ok(())
            }
            Key::Operates(it) => {
                let Ok(_before) = self.operators.insert(it, number) else {
                    return Err(Memory);
                };
                Ok(())
            }
            Key::Enters(name) => {
                put(&mut self.entering, name, number)?;
                Ok(())
            }
            Key::Misshapen => Ok(()),
        }
    }
}
