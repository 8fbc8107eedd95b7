ghost use Rattle.std.specs.Prelude.{◌≡◌, ◌<◌, ◌+◌, ◌^◌, ◌++◌, [], ◌∷◌, pos, length, slice_set};
ghost use Rattle.std.specs.Prelude.{IfOk};
ghost use Rattle.amx_ops.specs.Instructions.{IsProper};
ghost use Rattle.amx_ops.specs.Table.{operand_of};
ghost use Rattle.gen_sim.specs.Items.{Plain, CallOf, with};
ghost use Rattle.gen_expr.specs.Built.{with_items};

use amx_ops::{Op, encode};
use pawn_base::{Cells, List, Memory};
use std::alloc::Global;
use std::marker::Model;

/// The code of a file as it grows, with the cells that wait for a function's address. It is passed
/// on by value, and is dropped where memory is wanting.
#[derive(Debug, Drop)]
pub struct Builder {
    code: Cells,
    waits: List<(u32, u32)>,
}

impl Model for Builder {
    ghost use Rattle.gen_expr.specs.Built.{Built};

    ghost Value = { Built };

    ghost view = { λ b. record { code = b.code; waits = b.waits } };
}

impl Builder {
    /// No code, which takes no memory.
    pub fn new(alloc: Global) -> Builder
        ensures { result ≡ record { code = []; waits = [] } }
    {
        Builder {
            code: Cells::new(alloc),
            waits: List::new(alloc),
        }
    }

    /// The code cells.
    pub fn code(&self) -> &[i32]
        ensures { result.now ≡ self.now.code }
    {
        self.code.as_slice()
    }

    /// The cells that wait for a function's address, in the order of the code: the cell's number,
    /// and the function's.
    pub fn waits(&self) -> &[(u32, u32)]
        ensures { result.now ≡ self.now.waits }
    {
        self.waits.as_slice()
    }

    /// Appends a cell.
    pub fn cell(self, v: i32) -> Result<Builder, Memory>
        ensures { IfOk result (λ b. b ≡ record self { code = self.code ++ v ∷ [] }) }
    {
        let mut grown = self;
        grown.code.push(v)?;
        Ok(grown)
    }

    /// Appends a cell 0 that waits for the address of a function.
    pub fn address(self, f: u32) -> Result<Builder, Memory>
        requires { length self.code < 2 ^ 32 }
        ensures { IfOk result (λ b. b ≡ record {
          code = self.code ++ pos 0 ∷ [];
          waits = self.waits ++ (length self.code, f) ∷ [];
        }) }
    {
        let mut grown = self;
        let at = grown.code.len() as u32;
        grown.waits.push((at, f))?;
        grown.code.push(0)?;
        Ok(grown)
    }

    /// Writes a cell in the place of one that is there.
    pub fn fill(&mut self, at: u32, v: i32)
        requires { at < length self.old.code }
        ensures { self.new ≡ record self.old { code = slice_set self.old.code at v } }
    {
        self.code.set(at as usize, v);
    }

    /// Appends an instruction with its operand, which is 0 where it has none.
    pub fn put(self, op: Op, operand: i32) -> Result<Builder, Memory>
        requires { IsProper (operand_of op) operand }
        ensures { IfOk result (λ b. b ≡ with_items (Plain (with op operand) ∷ []) self) }
    {
        let mut grown = self;
        encode(op.number(), operand, &mut grown.code)?;
        Ok(grown)
    }

    /// Appends a call of a function, whose operand waits for its address.
    pub fn call(self, f: u32) -> Result<Builder, Memory>
        requires { length self.code + 1 < 2 ^ 32 }
        ensures { IfOk result (λ b. b ≡ with_items (CallOf f ∷ []) self) }
    {
        self.cell(i32::from(Op::Call.number()))?.address(f)
    }
}
