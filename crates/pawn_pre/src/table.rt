ghost use Rattle.std.specs.Prelude.{◌≡◌, OnOk, OnErr};
ghost use Rattle.std.specs.Option.{option_copied};
ghost use Rattle.std.specs.FinMap.{empty, get, insert, remove};

use super::rule::Rule;
use indexmap::IndexMap;
use pawn_base::Memory;
use std::alloc::Global;
use std::marker::Model;

/// The definitions in force, by key.
#[derive(Drop)]
pub struct Table {
    map: IndexMap<Vec<u8>, Rule>,
}

impl Model for Table {
    ghost use Rattle.std.specs.Coded.{coded_list, coded_ℕ};
    ghost use Rattle.std.specs.FinMap.{code};
    ghost use Rattle.pawn_pre.specs.contracts.rule.Rule as rule;
    ghost use Rattle.pawn_pre.specs.Table.{Rules, rules_of};

    ghost Value = { Rules };

    ghost coded = { code (coded_list coded_ℕ) rule.the_row.coded };

    ghost view = { λ table. rules_of (λ key. key.items) table.map.entries };
}

impl Table {
    /// No definition.
    pub fn new(alloc: Global) -> Table
        ensures { result ≡ empty }
    {
        Table {
            map: IndexMap::new(alloc),
        }
    }

    /// What stands at a key.
    pub fn find(&self, name: &[u8]) -> Option<&Rule>
        ensures { option_copied result ≡ get self.now name.now }
    {
        self.map.get(name)
    }

    /// Puts a definition at a key, in the place of one that stands there.
    ///
    /// # Errors
    ///
    /// `Memory` for want of memory; the table is as it was.
    pub fn insert(&mut self, name: Vec<u8>, rule: Rule) -> Result<(), Memory>
        ensures ok { OnOk result (self.new ≡ insert self.old name.items rule) }
        ensures err { OnErr result (self.new ≡ self.old) }
    {
        let Ok(_old) = self.map.insert(name, rule) else {
            return Err(Memory);
        };
        Ok(())
    }

    /// Drops the definition of a key, if there is one.
    pub fn remove(&mut self, name: &[u8])
        ensures { self.new ≡ remove self.old name.now }
    {
        let _old = self.map.swap_remove(name);
    }
}
