ghost use Rattle.std.specs.Prelude.{◌≡◌, [], ◌∷◌, ◌++◌, false, not, length, position, slice_get};
ghost use Rattle.std.specs.Prelude.{option_map, OnOk, OnErr, IfOk};
ghost use Rattle.std.specs.Str.{bytes_eq};
ghost use Rattle.pawn_base.specs.Among.{is_among, with_name};

use super::bytes::Bytes;
use super::list::List;
use super::memory::Memory;
use indexmap::IndexSet;
use std::alloc::Global;
use std::marker::Model;

/// Names, each once, in the order in which they were added. Contracts see them as a list; the
/// number of a name is its place there, from 0.
#[derive(Drop)]
pub struct Names {
    set: IndexSet<Vec<u8>>,
}

impl Model for Names {
    ghost use Rattle.std.specs.Prelude.{List as ListOf, ℕ, map};
    ghost use Rattle.std.specs.Coded.{coded_list, coded_ℕ};

    ghost Value = { ListOf (ListOf ℕ) };

    ghost coded = { coded_list (coded_list coded_ℕ) };

    ghost view = { λ names. map (λ key. key.items) names.set.keys };
}

impl Names {
    /// No names, which take no memory.
    pub fn new(alloc: Global) -> Names
        ensures { result ≡ [] }
    {
        Names {
            set: IndexSet::new(alloc),
        }
    }

    pub fn len(&self) -> usize
        ensures { result ≡ length self.now }
    {
        self.set.len()
    }

    pub fn contains(&self, name: &[u8]) -> bool
        ensures { result ≡ is_among name.now self.now }
    {
        self.set.contains(name)
    }

    /// The number of a name.
    pub fn place(&self, name: &[u8]) -> Option<usize>
        ensures { result ≡ position (bytes_eq name.now) self.now }
    {
        self.set.get_index_of(name)
    }

    /// The name with a number.
    pub fn get(&self, place: usize) -> Option<&[u8]>
        ensures { option_map (λ name. name.now) result ≡ slice_get self.now place }
    {
        match self.set.as_slice().get(place) {
            None => None,
            Some(name) => Some(name.as_slice()),
        }
    }

    /// Puts a new name at the end.
    pub fn push(&mut self, alloc: Global, name: &[u8]) -> Result<(), Memory>
        requires { is_among name.now self.old ≡ false }
        ensures ok { OnOk result (self.new ≡ self.old ++ name.now ∷ []) }
        ensures err { OnErr result (self.new ≡ self.old) }
    {
        let key = Vec::from_slice(alloc, name)?;
        let Ok(_new) = self.set.insert(key) else {
            return Err(Memory);
        };
        Ok(())
    }

    /// Adds a name, where it isn't among them; whether it wasn't.
    pub fn add(&mut self, alloc: Global, name: &[u8]) -> Result<bool, Memory>
        ensures told { IfOk result (λ is_new. is_new ≡ not (is_among name.now self.old)) }
        ensures added { OnOk result (self.new ≡ with_name self.old name.now) }
        ensures err { OnErr result (self.new ≡ self.old) }
    {
        if self.contains(name) {
            return Ok(false);
        }
        self.push(alloc, name)?;
        Ok(true)
    }

    /// The names as a list.
    pub fn into_list(self, alloc: Global) -> Result<List<Bytes>, Memory>
        ensures { IfOk result (λ list. list ≡ self) }
    {
        let Names { set } = self;
        let mut list = List::new(alloc);
        for name in set {
            list.push(Bytes::from_vec(name))?;
        }
        Ok(list)
    }
}
