ghost use Rattle.std.specs.Prelude.{◌≡◌, ◌≤◌, ◌<◌, ◌++◌};
ghost use Rattle.std.specs.Prelude.{All, drop, length, option_map, take, unwrap_or};
ghost use Rattle.pawn_cells.specs.Cells.{bits_of};
ghost use Rattle.amx_ops.specs.Moves.{arguments, live_from, with_write};
ghost use Rattle.host_run.specs.Sights.{arguments_of, IsRoomFor};
ghost use Rattle.host_run.specs.Writes.{addresses_of, written};

use amx_machine::Machine;
use host_script::Write;

/// Does the writes of an answer, the first of them first. All addresses are those that the
/// arguments had before, since a write may change an argument: they are read into a list that was
/// reserved.
pub fn write_all(machine: &mut Machine, writes: &[Write], reserved: &mut [i32])
    requires there { let count = unwrap_or (option_map length (arguments machine.old.state)) 0 in
        All (λ write. write.arg < count) writes.now }
    requires room { All (IsRoomFor machine.old.state (arguments_of machine.old.state)) writes.now }
    requires reserved { length writes.now ≤ length reserved.old }
    ensures written { machine.new ≡ written writes.now machine.old }
    ensures reserved { length reserved.new ≡ length reserved.old }
{
    read_addresses(machine, writes, reserved);
    write_each(machine, writes, reserved);
}

/// Reads where each write goes.
fn read_addresses(machine: &Machine, writes: &[Write], reserved: &mut [i32])
    requires there { let count = unwrap_or (option_map length (arguments machine.now.state)) 0 in
        All (λ write. write.arg < count) writes.now }
    requires reserved { length writes.now ≤ length reserved.old }
    ensures read { take (length writes.now) reserved.new
        ≡ addresses_of machine.now.state writes.now }
    ensures reserved { length reserved.new ≡ length reserved.old }
{
    for index in 0..writes.len() {
        reserved[index] = machine.native_arg(writes[index].arg);
    }
}

/// Does each write at the address that was read for it.
fn write_each(machine: &mut Machine, writes: &[Write], addresses: &[i32])
    requires room { All (IsRoomFor machine.old.state (arguments_of machine.old.state)) writes.now }
    requires long { length writes.now ≤ length addresses.now }
    requires read { take (length writes.now) addresses.now
        ≡ addresses_of machine.old.state writes.now }
    ensures { machine.new ≡ written writes.now machine.old }
{
    for index in 0..writes.len() {
        put(machine, addresses[index], writes[index].cells.as_slice());
    }
}

/// Writes cells from an address on, where so many lie within its live part.
fn put(machine: &mut Machine, at: i32, cells: &[i32])
    requires { length cells.now ≤ length (live_from machine.old.state (bits_of at)) }
    ensures { machine.new ≡ record machine.old {
      state = record machine.old.state {
        cells = with_write (record { to = bits_of at; values = cells.now })
            machine.old.state.cells;
      };
    } }
{
    // For the prover alone: by its clauses the registers are in order.
    let _ = machine.registers();
    put_first(machine.live_from_mut(at), cells);
}

/// Puts cells in the place of a part's first.
fn put_first(part: &mut [i32], cells: &[i32])
    requires { length cells.now ≤ length part.old }
    ensures { part.new ≡ cells.now ++ drop (length cells.now) part.old }
{
    part[..cells.len()].copy_from_slice(cells);
}
