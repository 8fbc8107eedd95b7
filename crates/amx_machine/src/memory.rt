ghost use Rattle.std.specs.Prelude.{[], ◌≡◌, ◌<◌, length, option_map, pos, unwrap_or};
ghost use Rattle.std.specs.List.{slice_index_or};
ghost use Rattle.std.specs.Borrow.{sem};
ghost use Rattle.pawn_cells.specs.Cells.{bits_of};
ghost use Rattle.amx_ops.specs.Moves as moves;
ghost use Rattle.amx_step.specs.Hosting.{AreInOrder, registers_of, cleared};
ghost use Rattle.amx_machine.specs.Machine.{IsKept};
ghost use Rattle.amx_machine.specs.declared.mode.Mode.TheVariants as mode;

use super::machine::Machine;
use super::mode::Mode;
use amx_step::Registers;

// Registers, arguments and memory.
impl Machine {
    ghost use Rattle.amx_machine.specs.Lending.{LendsLive};

    /// How many arguments a native has: they lie above the count of their bytes at STK. None where
    /// the count or one of them isn't live, or the count is no multiple of 4.
    pub fn native_args(&self) -> Option<u32>
        ensures { result ≡ option_map length (moves.arguments self.now.state) }
    {
        self.core.native_args()
    }

    /// An argument of a native, from 0 on.
    pub fn native_arg(&self, index: u32) -> i32
        requires { index < unwrap_or (option_map length (moves.arguments self.now.state)) 0 }
        ensures { result ≡ slice_index_or (unwrap_or (moves.arguments self.now.state) []) index
            (pos 0) }
    {
        // For the prover alone: by its clauses the registers are in order.
        let _ = self.core.registers();
        self.core.native_arg(index)
    }

    /// Lends the cells from an address up to the end of its live part, which is HEA or the top:
    /// none where the address isn't live or no multiple of 4.
    pub fn live_from(&self, at: i32) -> &[i32]
        ensures { result.now ≡ moves.live_from self.now.state (bits_of at) }
    {
        self.core.live_from(at)
    }

    /// The same, lent to be written in place.
    pub fn live_from_mut(&mut self, at: i32) -> &mut [i32]
        ensures* writes_back { sem 𝓛 (LendsLive self.entry (bits_of at) result) }
        ensures value { result.now ≡ moves.live_from self.old.state (bits_of at) }
    {
        self.core.live_from_mut(at)
    }

    /// The registers. HEA and STK are multiples of 4 between the data's end and the top, HEA not
    /// above STK, and at a sleep the cells from HEA below STK are 0. Whatever a machine does, it
    /// has as many cells as its file's data and room.
    pub fn registers(&self) -> Registers
        ensures value { result ≡ registers_of self.now.state }
        ensures kept { IsKept self.now }
    {
        self.core.registers()
    }

    /// Sets the registers, makes all cells 0, and leaves the machine at a sleep. HEA and STK are
    /// to be multiples of 4 from the data's end to the top, HEA not above STK.
    #[tactic(auto, using(crate::proofs::RestLaws::cleared_rests))]
    pub fn set_asleep(&mut self, registers: Registers)
        requires { AreInOrder self.old.amx (cleared registers self.old.state) }
        ensures { self.new ≡ record self.old {
          state = cleared registers self.old.state;
          mode = mode.Asleep;
        } }
    {
        self.wake();
        self.core.clear(registers);
        self.mode = Mode::Asleep;
    }
}
