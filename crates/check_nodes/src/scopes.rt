ghost use Rattle.std.specs.Prelude.{◌≡◌, [], option_map, Some, OnOk};
ghost use Rattle.types_rules.specs.Scope as spec;
ghost use Rattle.check_nodes.specs.Scopes.{entered, here_in, nothing_declared, outer_of};
ghost use Rattle.check_nodes.specs.Scopes.{scope_view, sight_view, with_name, without};

use super::meaning::Meaning;
use indexmap::IndexMap;
use pawn_base::Memory;
use pawn_cells::predefined;
use pawn_tags::{TRUTH_TAG, UNTAGGED};
use std::alloc::Global;
use std::marker::Model;

/// What a declaration in sight means.
#[derive(Clone, Copy, Debug, PartialEq, Eq)]
pub enum Sight {
    Means(Meaning),
    /// The declaration doesn't stand, so its name means nothing.
    Unknown,
}

/// What a name means, and in how many blocks its declaration stands.
#[derive(Clone, Copy)]
struct Declared {
    means: Sight,
    depth: usize,
}

/// A name that is declared, and what it meant before.
#[derive(Drop)]
struct Hidden<'a> {
    name: &'a [u8],
    declared: Declared,
    before: Option<Declared>,
}

/// The declarations in sight (Language Guide, "Scope"). Contracts see them block by block, the
/// innermost first.
#[derive(Drop)]
pub struct Scopes<'a> {
    /// What each name means now.
    table: IndexMap<&'a [u8], Option<Declared>>,
    /// The declarations in sight, the latest last, with None where a block begins.
    stack: Vec<Option<Hidden<'a>>>,
    depth: usize,
}

impl<'a> Model for Scopes<'a> {
    ghost use Rattle.std.specs.Prelude.{reverse};
    ghost use Rattle.check_nodes.specs.Scopes.{Blocks, blocks_of};
    ghost use Rattle.check_nodes.specs.Indexed.{IsIndexed};

    ghost Value = { Blocks };

    ghost view = { λ scopes. blocks_of (reverse scopes.stack.items) };

    ghost invariant = { λ scopes.
        IsIndexed (reverse scopes.stack.items) scopes.table.entries scopes.depth };
}

/// The tag of a truth value, and of other numbers.
fn truth_tag(is_bool: bool) -> u32
    ensures { result ≡ spec.truth_tag is_bool }
{
    if is_bool { TRUTH_TAG } else { UNTAGGED }
}

/// What a name means that no declaration has.
#[tactic(auto, unfolding(types_rules::specs::Scope::found))]
fn elsewhere(name: &[u8]) -> Option<Sight>
    ensures { option_map sight_view result ≡ spec.found [] name.now }
{
    match predefined(name) {
        None => None,
        Some(it) => {
            let means = Meaning::Constant(it.value, truth_tag(it.is_bool));
            Some(Sight::Means(means))
        }
    }
}

/// What a declaration means, if it stands in so many blocks.
fn means_at(declared: Declared, depth: usize) -> Option<Sight>
    ensures { option_map sight_view result ≡ here_in (Some declared) depth }
{
    if declared.depth == depth {
        Some(declared.means)
    } else {
        None
    }
}

impl<'a> Scopes<'a> {
    /// One block, in which nothing is declared.
    pub fn new(alloc: Global) -> Scopes<'a>
        ensures { result ≡ nothing_declared }
    {
        Scopes {
            table: IndexMap::new(alloc),
            stack: Vec::new(alloc),
            depth: 0,
        }
    }

    /// What a name means: that of the innermost block that has it, else the predefined constant.
    pub fn find(&self, name: &[u8]) -> Option<Sight>
        ensures { option_map sight_view result ≡ spec.found (scope_view self.now) name.now }
    {
        match self.table.get(name) {
            None => elsewhere(name),
            Some(None) => elsewhere(name),
            Some(Some(declared)) => Some(declared.means),
        }
    }

    /// What a name means in the innermost block. That of the file has the predefined constants too.
    pub fn find_here(&self, name: &[u8]) -> Option<Sight>
        ensures { option_map sight_view result ≡
            spec.found_in_block (scope_view self.now) name.now }
    {
        if self.depth == 0 {
            return self.find(name);
        }
        match self.table.get(name) {
            None => None,
            Some(None) => None,
            Some(Some(declared)) => means_at(*declared, self.depth),
        }
    }

    /// A name is declared in the innermost block, and means this.
    ///
    /// # Errors
    ///
    /// `Memory` for want of memory.
    pub fn declare(&mut self, name: &'a [u8], means: Sight) -> Result<(), Memory>
        ensures { OnOk result (self.new ≡ with_name name.now means self.old) }
    {
        let before = match self.table.get(name) {
            None => None,
            Some(before) => *before,
        };
        let declared = Declared {
            means,
            depth: self.depth,
        };
        self.stack.reserve(1)?;
        let Ok(_before) = self.table.insert(name, Some(declared)) else {
            return Err(Memory);
        };
        let Ok(()) = self.stack.push(Some(Hidden {
            name,
            declared,
            before,
        }))
        else {
            unreachable!()
        };
        Ok(())
    }

    /// A block begins.
    ///
    /// # Errors
    ///
    /// `Memory` for want of memory.
    pub fn enter(&mut self) -> Result<(), Memory>
        ensures { OnOk result (self.new ≡ entered self.old) }
    {
        let Some(depth) = self.depth.checked_add(1) else {
            return Err(Memory);
        };
        self.stack.push(None)?;
        self.depth = depth;
        Ok(())
    }

    /// The innermost block ends. That of the file begins anew.
    #[tactic(auto, using(crate::proofs::IndexLaws::left_block))]
    pub fn leave(&mut self)
        ensures { self.new ≡ outer_of self.old }
    {
        while let Some(top) = self.stack.pop() {
            let Some(hidden) = top else {
                self.depth = self.depth.saturating_sub(1);
                break;
            };
            // the name has an entry, which takes no memory
            let Ok(_now) = self.table.insert(hidden.name, hidden.before) else {
                unreachable!()
            };
        }
    }

    /// The latest declaration of the innermost block goes, where it has one.
    fn forget_last(&mut self)
        ensures { self.new ≡ without 1 self.old }
    {
        let Some(Some(_)) = self.stack.last() else {
            return;
        };
        let Some(Some(hidden)) = self.stack.pop() else {
            unreachable!()
        };
        // the name has an entry, which takes no memory
        let Ok(_now) = self.table.insert(hidden.name, hidden.before) else {
            unreachable!()
        };
    }

    /// So many of the latest declarations of the innermost block go, or all that it has: what they
    /// hid is in sight again.
    pub fn forget(&mut self, count: usize)
        ensures { self.new ≡ without count self.old }
    {
        for _i in 0..count {
            self.forget_last();
        }
    }
}
