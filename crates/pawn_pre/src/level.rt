ghost use Rattle.std.specs.Prelude.{◌≡◌, [], ◌∷◌, OnOk};
ghost use Rattle.pawn_pre.specs.Lists as lists;
ghost use Rattle.pawn_pre.specs.Level as levels;

use super::file::File;
use super::row::Row;
use super::state::{Conditional, Part};
use pawn_base::Memory;
use std::alloc::Global;
use std::collections::VecDeque;
use std::marker::Model;

/// An open file.
#[derive(Drop)]
pub struct Level {
    file: u64,
    last: u32,
    unclosed: bool,
    rows: VecDeque<Row>,
    conditionals: VecDeque<Conditional>,
}

impl Model for Level {
    ghost use Rattle.pawn_pre.specs.Level.{Level as OpenFile};

    ghost Value = { OpenFile };

    ghost view = { λ level. record {
      file = level.file;
      last = level.last;
      unclosed = level.unclosed;
      rows = level.rows.items;
      conditionals = level.conditionals.items;
    } };
}

impl Level {
    /// A file at its beginning.
    pub fn new(alloc: Global, number: u64, file: File) -> Level
        ensures { result ≡ levels.opened number
            (record { rows = file.rows.items; last = file.last; unclosed = file.unclosed }) }
    {
        Level {
            file: number,
            last: file.last,
            unclosed: file.unclosed,
            rows: file.rows,
            conditionals: VecDeque::new(alloc),
        }
    }

    pub fn file(&self) -> u64
        ensures { result ≡ self.now.file }
    {
        self.file
    }

    pub fn last(&self) -> u32
        ensures { result ≡ self.now.last }
    {
        self.last
    }

    pub fn is_unclosed(&self) -> bool
        ensures { result ≡ self.now.unclosed }
    {
        self.unclosed
    }

    /// The innermost open conditional.
    pub fn innermost(&self) -> Option<Conditional>
        ensures { result ≡ lists.first_of self.now.conditionals }
    {
        self.conditionals.front().copied()
    }

    /// Whether the next line stands in a chosen part.
    pub fn is_chosen(&self) -> bool
        ensures { result ≡ levels.is_chosen (lists.first_of self.now.conditionals) }
    {
        match self.innermost() {
            None => true,
            Some(conditional) => conditional.part == Part::Chosen,
        }
    }

    /// Takes off the next line.
    pub fn take_row(&mut self) -> Option<Row>
        ensures row { result ≡ lists.first_of self.old.rows }
        ensures rest { self.new ≡ record self.old { rows = lists.rest_of self.old.rows } }
    {
        self.rows.pop_front()
    }

    /// Opens a conditional.
    pub fn push(&mut self, conditional: Conditional) -> Result<(), Memory>
        ensures { OnOk result (self.new ≡
            record self.old { conditionals = conditional ∷ self.old.conditionals }) }
    {
        self.conditionals.push_front(conditional)?;
        Ok(())
    }

    /// Closes the innermost conditional.
    pub fn pop(&mut self)
        ensures { self.new ≡
            record self.old { conditionals = lists.rest_of self.old.conditionals } }
    {
        let _closed = self.conditionals.pop_front();
    }

    /// Ends the file here, with its conditionals.
    pub fn end(&mut self)
        ensures { self.new ≡ record self.old { rows = []; conditionals = [] } }
    {
        self.rows.clear();
        self.conditionals.clear();
    }
}
