ghost use Rattle.std.specs.Prelude.{◌≡◌, [], not, is_some, IfOk, OnOk, OnErr};
ghost use Rattle.pawn_tags.specs.Overloads.{choice, function_of, with_overload};

use super::op::{Op, Signature};
use indexmap::IndexMap;
use pawn_base::Memory;
use std::alloc::Global;
use std::marker::Model;

/// A function that stands for an operator, and whether it takes the operands exchanged.
#[derive(Clone, Copy, Debug, PartialEq, Eq)]
pub struct Choice {
    pub function: u32,
    pub swapped: bool,
}

/// The user operators, each once. Contracts see the list of them in the order in which they were
/// defined, each with the number of its function.
#[derive(Drop)]
pub struct Operators {
    map: IndexMap<Signature, u32>,
}

impl Model for Operators {
    ghost use Rattle.std.specs.Prelude.{List, ℕ};
    ghost use Rattle.pawn_tags.specs.declared.op.Signature.{Signature};

    ghost Value = { List (Signature × ℕ) };

    ghost view = { λ operators. operators.map.entries };
}

impl Operators {
    /// No operators.
    pub fn new(alloc: Global) -> Result<Operators, Memory>
        ensures { IfOk result (λ operators. operators ≡ []) }
    {
        Ok(Operators {
            map: IndexMap::new(alloc),
        })
    }

    /// Defines an operator by a function, where it isn't defined yet for these tags; whether it
    /// wasn't. An operator of one operand has the right tag 0; `=` goes from the left tag to the
    /// right one.
    ///
    /// # Errors
    ///
    /// `Memory` for want of memory; the operators are as they were.
    pub fn define(&mut self, op: Op, left: u32, right: u32, function: u32) -> Result<bool, Memory>
        ensures told { IfOk result (λ is_new. is_new ≡
            not (is_some (function_of self.old op left right))) }
        ensures added { OnOk result (self.new ≡
            with_overload self.old op left right function) }
        ensures err { OnErr result (self.new ≡ self.old) }
    {
        let signature = Signature { op, left, right };
        if self.map.contains_key(&signature) {
            return Ok(false);
        }
        let Ok(_none) = self.map.insert(signature, function) else {
            return Err(Memory);
        };
        Ok(true)
    }

    /// The function of an operator between exactly these tags.
    fn exact(&self, op: Op, left: u32, right: u32) -> Option<u32>
        ensures { result ≡ function_of self.now op left right }
    {
        self.map.get(&Signature { op, left, right }).copied()
    }

    /// The user operator that stands for an operator between operands of these tags, or None for
    /// the built-in one (Language Guide, "User-defined operators"). One that is defined for these
    /// tags goes before one for the tags exchanged, which only `+`, `*`, `==` and `!=` take.
    pub fn choose(&self, op: Op, left: u32, right: u32) -> Option<Choice>
        ensures { result ≡ choice self.now op left right }
    {
        if let Some(function) = self.exact(op, left, right) {
            return Some(Choice {
                function,
                swapped: false,
            });
        }
        if !op.commutes() {
            return None;
        }
        match self.exact(op, right, left) {
            None => None,
            Some(function) => Some(Choice {
                function,
                swapped: true,
            }),
        }
    }
}
