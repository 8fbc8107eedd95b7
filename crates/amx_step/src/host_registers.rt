ghost use Rattle.std.specs.Prelude.{◌≡◌, ◌+◌, ◌*◌, ◌%◌, ◌<◌, ◌≤◌, if◌then◌else◌};
ghost use Rattle.std.specs.Prelude.{[], Some, length, option_map, pos, unwrap_or};
ghost use Rattle.std.specs.List.{slice_index_or};
ghost use Rattle.std.specs.Borrow.{sem};
ghost use Rattle.pawn_cells.specs.Cells.{bits_of};
ghost use Rattle.amx_ops.specs.Moves as moves;
ghost use Rattle.amx_block.specs.Contents.{part_at};
ghost use Rattle.amx_ops.specs.Access.{is_live};
ghost use Rattle.amx_ops.specs.Writable.{memory_limit};
ghost use Rattle.amx_ops.specs.Trace.{start_at, pushed_by, pushed_all};
ghost use Rattle.amx_step.specs.Machine.{cell_count};

use super::registers::Core;

/// What a host sees of the registers. FRM, CIP, STK and HEA are addresses in bytes.
#[derive(Clone, Copy, Debug, PartialEq, Eq)]
pub struct Registers {
    pub pri: i32,
    pub alt: i32,
    pub frm: i32,
    pub cip: i32,
    pub stk: i32,
    pub hea: i32,
}

// What a host does to a machine.
impl Core {
    ghost use Rattle.amx_step.specs.Hosting.{StartsSo, AreInOrder, registers_of, cleared};
    ghost use Rattle.amx_step.specs.Lending.{LendsLive};

    /// Starts at an address, with all cells kept: pushes the arguments from the last to the first,
    /// the count of their bytes and the return address 0. False, and nothing changed, where they
    /// find no room above the data.
    pub fn start_at(&mut self, address: i32, arguments: &[i32]) -> bool
        ensures { StartsSo (start_at self.old.amx address arguments.now self.old.state)
            self.old result self.new }
    {
        let hea = 4 * self.verified.amx().store.len() as u32;
        let room = ((self.stp - hea) / 4) as usize;
        if room < 2 || room - 2 < arguments.len() {
            return false;
        }
        self.hea = hea;
        self.stk = self.stp;
        self.pri = 0;
        self.alt = 0;
        self.frm = 0;
        self.cip = address.cast_unsigned();
        self.put_all(arguments);
        self.put((4 * arguments.len() as u32).cast_signed());
        self.put(0);
        true
    }

    /// The registers.
    pub fn registers(&self) -> Registers
        ensures value { result ≡ registers_of self.now.state }
        ensures order { AreInOrder self.now.amx self.now.state }
        ensures size { 4 * length self.now.state.cells ≤ memory_limit }
        ensures count { length self.now.state.cells ≡ cell_count self.now.amx }
    {
        // For the prover alone: its clause is the one on the size.
        let _ = self.block.top();
        Registers {
            pri: self.pri,
            alt: self.alt,
            frm: self.frm.cast_signed(),
            cip: self.cip.cast_signed(),
            stk: self.stk.cast_signed(),
            hea: self.hea.cast_signed(),
        }
    }

    /// Sets the registers, and makes all cells 0.
    pub fn clear(&mut self, registers: Registers)
        requires { AreInOrder self.old.amx (cleared registers self.old.state) }
        ensures { self.new ≡ record self.old { state = cleared registers self.old.state } }
    {
        self.pri = registers.pri;
        self.alt = registers.alt;
        self.frm = registers.frm.cast_unsigned();
        self.cip = registers.cip.cast_unsigned();
        self.stk = registers.stk.cast_unsigned();
        self.hea = registers.hea.cast_unsigned();
        self.block.fill(0, self.stp / 4, 0);
    }

    /// PRI = what a native answers.
    pub fn answer(&mut self, value: i32)
        ensures { self.new ≡ record self.old { state = record self.old.state { pri = value } } }
    {
        self.pri = value;
    }

    /// How many arguments lie above their count of bytes at STK; none where one of them or the
    /// count isn't live, or the count is no multiple of 4.
    pub fn native_args(&self) -> Option<u32>
        ensures value { result ≡ option_map length (moves.arguments self.now.state) }
        ensures order { AreInOrder self.now.amx self.now.state }
    {
        if self.stk >= self.stp {
            return None;
        }
        let bytes = self.block.read(self.stk).cast_unsigned();
        if bytes % 4 != 0 || bytes > self.stp - self.stk - 4 {
            return None;
        }
        Some(bytes / 4)
    }

    /// One of these arguments.
    pub fn native_arg(&self, index: u32) -> i32
        requires { index < unwrap_or (option_map length (moves.arguments self.now.state)) 0 }
        ensures value { result ≡ slice_index_or (unwrap_or (moves.arguments self.now.state) [])
            index (pos 0) }
        ensures order { AreInOrder self.now.amx self.now.state }
    {
        self.block.read(self.stk + 4 + 4 * index)
    }

    /// The cells from an address to the end of its live part.
    pub fn live_from(&self, at: i32) -> &[i32]
        ensures value { result.now ≡ moves.live_from self.now.state (bits_of at) }
        ensures order { AreInOrder self.now.amx self.now.state }
    {
        let (at, count) = self.live_part(at.cast_unsigned());
        self.block.part(at, count)
    }

    /// The same, lent to be written in place.
    pub fn live_from_mut(&mut self, at: i32) -> &mut [i32]
        ensures* writes_back { sem 𝓛 (LendsLive self.entry (bits_of at) result) }
        ensures value { result.now ≡ moves.live_from self.old.state (bits_of at) }
        ensures order { AreInOrder self.old.amx self.old.state }
    {
        let (at, count) = self.live_part(at.cast_unsigned());
        self.block.part_mut(at, count)
    }

    /// The place of a live part and its count of cells; 0 and 0 where the address isn't live.
    #[tactic(auto, using(crate::proofs::HostLaws::parts))]
    fn live_part(&self, at: u32) -> (u32, u32)
        ensures place { result.0 ≡ (if is_live self.now.state at then at else 0) }
        ensures within { result.0 + 4 * result.1 ≤ 4 * length self.now.state.cells }
        ensures aligned { result.0 % 4 ≡ 0 }
        ensures part { part_at self.now.state.cells result.0 result.1
            ≡ moves.live_from self.now.state at }
    {
        if !self.is_live(at) {
            return (0, 0);
        }
        if at < self.hea {
            (at, (self.hea - at) / 4)
        } else {
            (at, (self.stp - at) / 4)
        }
    }

    /// Pushes a cell where there is room for it.
    fn put(&mut self, value: i32)
        requires { self.old.state.hea + 4 ≤ self.old.state.stk }
        ensures pushed { pushed_by value (Some self.old.state) ≡ Some self.new.state }
        ensures stk { self.new.state.stk + 4 ≡ self.old.state.stk }
        ensures hea { self.new.state.hea ≡ self.old.state.hea }
        ensures file { self.new.amx ≡ self.old.amx }
    {
        self.stk -= 4;
        self.block.write(self.stk, value);
    }

    /// Pushes cells from the last to the first, where there is room for them.
    fn put_all(&mut self, values: &[i32])
        requires { self.old.state.hea + 4 * length values.now ≤ self.old.state.stk }
        ensures pushed { pushed_all values.now self.old.state ≡ Some self.new.state }
        ensures stk { self.new.state.stk + 4 * length values.now ≡ self.old.state.stk }
        ensures hea { self.new.state.hea ≡ self.old.state.hea }
        ensures file { self.new.amx ≡ self.old.amx }
    {
        for done in 0..values.len() {
            self.put(values[values.len() - 1 - done]);
        }
    }
}
