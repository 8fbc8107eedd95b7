ghost use Rattle.std.specs.Prelude.{◌≡◌, ◌<◌, [], ◌∷◌, ◌++◌, ◌↔◌, length, slice_set, IsTrue, IfOk};
ghost use Rattle.std.specs.Prelude.{OnOk, OnErr};
ghost use Rattle.pawn_base.specs.Cells.{AreCells};

use super::memory::Memory;
use std::alloc::Global;
use std::marker::Model;

/// 32-bit cells that grow. Contracts see them as a list of whole numbers, each of which fits 32
/// bits with its sign.
#[derive(Debug, Drop)]
pub struct Cells {
    items: Vec<i32>,
}

impl Model for Cells {
    ghost use Rattle.std.specs.Prelude.{List, ℤ};
    ghost use Rattle.std.specs.Coded.{coded_list, coded_ℤ};
    ghost use Rattle.pawn_base.specs.Cells.{AreCells};

    ghost Value = { List ℤ };

    ghost coded = { coded_list coded_ℤ };

    ghost view = { λ cells. cells.items.items };

    ghost invariant = { λ cells. AreCells cells.items.items };
}

impl Cells {
    /// No cells, which takes no memory.
    pub fn new(alloc: Global) -> Cells
        ensures { result ≡ [] }
    {
        Cells {
            items: Vec::new(alloc),
        }
    }

    /// A copy of a slice.
    pub fn from_slice(alloc: Global, cells: &[i32]) -> Result<Cells, Memory>
        ensures { IfOk result (λ copy. copy ≡ cells.now) }
    {
        let mut copy = Cells::new(alloc);
        for cell in cells {
            copy.push(*cell)?;
        }
        Ok(copy)
    }

    /// Puts a cell at the end.
    pub fn push(&mut self, cell: i32) -> Result<(), Memory>
        ensures ok { OnOk result (self.new ≡ self.old ++ cell ∷ []) }
        ensures err { OnErr result (self.new ≡ self.old) }
    {
        self.items.push(cell)?;
        Ok(())
    }

    /// Puts other cells behind these.
    pub fn append(&mut self, more: &Cells) -> Result<(), Memory>
        ensures ok { OnOk result (self.new ≡ self.old ++ more.now) }
        ensures err { OnErr result (self.new ≡ self.old) }
    {
        self.items.extend_from_slice(more.items.as_slice())?;
        Ok(())
    }

    /// Writes a cell in the place of the one that is counted so from 0.
    pub fn set(&mut self, index: usize, cell: i32)
        requires { index < length self.now }
        ensures { self.new ≡ slice_set self.old index cell }
    {
        self.items[index] = cell;
    }

    pub fn len(&self) -> usize
        ensures { result ≡ length self.now }
    {
        self.items.len()
    }

    pub fn is_empty(&self) -> bool
        ensures { IsTrue result ↔ (self.now ≡ []) }
    {
        self.items.is_empty()
    }

    pub fn as_slice(&self) -> &[i32]
        ensures cells { result.now ≡ self.now }
        ensures fits { AreCells self.now }
    {
        self.items.as_slice()
    }
}
