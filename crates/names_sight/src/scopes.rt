ghost use Rattle.std.specs.Prelude.{◌≡◌, [], ◌∷◌, option_map, OnOk};
ghost use Rattle.names_sight.specs.Scopes as spec;

use indexmap::IndexMap;
use pawn_base::Memory;
use std::alloc::Global;
use std::marker::Model;

/// The declaration that a name means, by its number, and in how many blocks it stands.
#[derive(Clone, Copy)]
struct Declared {
    number: usize,
    depth: usize,
}

/// A name that is declared, and what it meant before.
#[derive(Drop)]
struct Hidden<'a> {
    name: &'a [u8],
    declared: Declared,
    before: Option<Declared>,
}

/// Which declarations are in sight, by their numbers. Contracts see them block by block.
#[derive(Drop)]
pub struct Scopes<'a> {
    /// What each name means now.
    table: IndexMap<&'a [u8], Option<Declared>>,
    /// The declarations in sight, the latest last, with None where a block begins.
    stack: Vec<Option<Hidden<'a>>>,
    depth: usize,
}

impl<'a> Model for Scopes<'a> {
    ghost use Rattle.std.specs.Prelude.{reverse};
    ghost use Rattle.names_sight.specs.Scopes.{Numbered, blocks_of};
    ghost use Rattle.names_sight.specs.Indexed.{IsIndexed};

    ghost Value = { Numbered };

    ghost view = { λ scopes. blocks_of (reverse scopes.stack.items) };

    ghost invariant = { λ scopes.
        IsIndexed (reverse scopes.stack.items) scopes.table.entries scopes.depth };
}

impl<'a> Scopes<'a> {
    /// Nothing is declared.
    pub fn new(alloc: Global) -> Scopes<'a>
        ensures { result ≡ [] }
    {
        Scopes {
            table: IndexMap::new(alloc),
            stack: Vec::new(alloc),
            depth: 0,
        }
    }

    /// The declaration of a name in the innermost block that has one.
    pub fn find(&self, name: &[u8]) -> Option<usize>
        ensures { result ≡ spec.number_of self.now name.now }
    {
        match self.table.get(name) {
            None => None,
            Some(None) => None,
            Some(Some(declared)) => Some(declared.number),
        }
    }

    /// Whether the innermost block has a declaration of a name.
    pub fn is_here(&self, name: &[u8]) -> bool
        ensures { result ≡ spec.innermost_has self.now name.now }
    {
        match self.table.get(name) {
            None => false,
            Some(None) => false,
            Some(Some(declared)) => declared.depth == self.depth,
        }
    }

    /// A name is declared in the innermost block, by the declaration of a number.
    ///
    /// # Errors
    ///
    /// `Memory` for want of memory.
    pub fn declare(&mut self, name: &'a [u8], number: usize) -> Result<(), Memory>
        ensures { OnOk result (self.new ≡ spec.with_number name.now number self.old) }
    {
        let before = match self.table.get(name) {
            None => None,
            Some(before) => *before,
        };
        let declared = Declared {
            number,
            depth: self.depth,
        };
        self.stack.reserve(1)?;
        let Ok(_before) = self.table.insert(name, Some(declared)) else {
            return Err(Memory);
        };
        let Ok(()) = self.stack.push(Some(Hidden {
            name,
            declared,
            before,
        }))
        else {
            unreachable!()
        };
        Ok(())
    }

    /// A block begins.
    ///
    /// # Errors
    ///
    /// `Memory` for want of memory.
    pub fn enter(&mut self) -> Result<(), Memory>
        ensures { OnOk result (self.new ≡ [] ∷ self.old) }
    {
        let Some(depth) = self.depth.checked_add(1) else {
            return Err(Memory);
        };
        self.stack.push(None)?;
        self.depth = depth;
        Ok(())
    }

    /// The innermost block ends.
    pub fn leave(&mut self)
        ensures { self.new ≡ spec.outer_of self.old }
    {
        while let Some(top) = self.stack.pop() {
            let Some(hidden) = top else {
                self.depth = self.depth.saturating_sub(1);
                break;
            };
            // the name has an entry, which takes no memory
            let Ok(_now) = self.table.insert(hidden.name, hidden.before) else {
                unreachable!()
            };
        }
    }
}
