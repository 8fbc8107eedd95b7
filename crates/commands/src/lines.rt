ghost use Rattle.pawn_outside.specs.Said.{Said};
ghost use Rattle.commands.specs.Lines.{ok_line, warning_line, warning_lines};

use itoa::Buffer;
use pawn_front::Warning;
use pawn_outside::{Sink, SinkFault, say};

/// Writes the line of each warning. Like the other lines they take no memory, and stop at the first
/// write that fails.
pub fn say_warnings<S: Sink>(warnings: &[Warning], out: &mut S) -> Result<(), SinkFault>
    ensures { Said S.taken S.faults S.has_room out.old out.new (warning_lines warnings.now) result }
{
    for warning in warnings {
        say_warning(warning, out)?;
    }
    Ok(())
}

/// Writes the line of a warning.
fn say_warning<S: Sink>(warning: &Warning, out: &mut S) -> Result<(), SinkFault>
    ensures { Said S.taken S.faults S.has_room out.old out.new (warning_line warning.now) result }
{
    let mut digits = Buffer::new();
    let line = digits.format(warning.line).as_bytes();
    say(
        out,
        &[warning.file.as_slice(), b":", line, b": warning 213\n"],
    )
}

/// Writes the line of a file of so many bytes that was put.
pub fn say_ok<S: Sink>(bytes: usize, out: &mut S) -> Result<(), SinkFault>
    ensures { Said S.taken S.faults S.has_room out.old out.new (ok_line bytes) result }
{
    let mut digits = Buffer::new();
    say(out, &[b"ok ", digits.format(bytes).as_bytes(), b" bytes\n"])
}
