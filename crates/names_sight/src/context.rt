ghost use Rattle.std.specs.Prelude.{◌≡◌, option_map, OnOk};
ghost use Rattle.pawn_cells.specs.declared.place.Place.{Place};
ghost use Rattle.names_rules.specs.Around as spec;
ghost use Rattle.names_rules.specs.Worth as worth;
ghost use Rattle.names_sight.specs.Changes.{Declares, Enters, Leaves};
ghost use Rattle.names_sight.specs.Means.{around_view, elsewhere_view, means_view};
ghost use Rattle.names_sight.specs.Scopes as scopes;
ghost use Rattle.names_sight.specs.Views.{head_view, meant_view};

use super::known::{Known, Meant, MeantKind};
use super::outside::{FileNames, FirstHead};
use super::scopes::Scopes;
use pawn_base::{List, Memory};
use pawn_cells::{Constant, predefined};
use pawn_tags::{Op, Operators, TRUTH_TAG, TagTable, UNTAGGED};

/// What is known everywhere in a tree, and what is declared so far.
#[derive(Drop)]
pub struct Context<'a> {
    pub tags: TagTable,
    pub operators: Operators,
    pub names: FileNames<'a>,
    pub scopes: Scopes<'a>,
    /// The declarations by their numbers, those that aren't in sight any more too.
    pub known: List<Known>,
}

fn function(head: FirstHead) -> Meant<'static>
    ensures { meant_view result ≡ head_view head }
{
    Meant {
        token: Some(head.token),
        tag: head.tag,
        kind: MeantKind::Function,
    }
}

fn constant(x: Constant) -> Meant<'static>
    ensures { meant_view result ≡ spec.constant x }
{
    Meant {
        token: None,
        tag: if x.is_bool { TRUTH_TAG } else { UNTAGGED },
        kind: MeantKind::Worth(x.value),
    }
}

impl<'a> Context<'a> {
    /// What a name means that no declaration in sight has.
    fn everywhere(&self, name: &[u8]) -> Option<Meant<'_>>
        ensures { option_map meant_view result ≡ elsewhere_view self.now name.now }
    {
        match self.names.function(name) {
            Some(head) => Some(function(head)),
            None => match predefined(name) {
                None => None,
                Some(x) => Some(constant(x)),
            },
        }
    }

    /// What a name means here (Language Guide, "Declarations", on scope).
    pub fn means(&self, name: &[u8]) -> Option<Meant<'_>>
        ensures { option_map meant_view result ≡ means_view self.now name.now }
    {
        match self.scopes.find(name) {
            None => self.everywhere(name),
            Some(number) => match self.known.as_slice().get(number) {
                None => None,
                Some(known) => Some(known.meant()),
            },
        }
    }

    /// Whether the innermost block has a declaration of a name.
    pub fn is_here(&self, name: &[u8]) -> bool
        ensures { result ≡ scopes.innermost_has self.now.scopes name.now }
    {
        self.scopes.is_here(name)
    }

    /// Whether the program defines an operator for these tags.
    pub fn is_chosen(&self, op: Option<Op>, left: u32, right: u32) -> bool
        ensures { (place : Place) →
            result ≡ worth.is_chosen (around_view self.now) place op left right }
    {
        match op {
            None => false,
            Some(op) => self.operators.choose(op, left, right).is_some(),
        }
    }

    /// A name is declared in the innermost block.
    ///
    /// # Errors
    ///
    /// `Memory` for want of memory; the declaration isn't known then.
    pub fn declare(&mut self, name: &'a [u8], it: Known) -> Result<(), Memory>
        ensures { OnOk result (Declares self.old self.new name.now it) }
    {
        let number = self.known.len();
        self.known.push(it)?;
        self.scopes.declare(name, number)
    }

    /// A block begins.
    ///
    /// # Errors
    ///
    /// `Memory` for want of memory.
    pub fn enter(&mut self) -> Result<(), Memory>
        ensures { OnOk result (Enters self.old self.new) }
    {
        self.scopes.enter()
    }

    /// The innermost block ends.
    pub fn leave(&mut self)
        ensures { Leaves self.old self.new }
    {
        self.scopes.leave();
    }
}
