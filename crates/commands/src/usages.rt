ghost use Rattle.std.specs.Prelude.{◌≡◌, Err};
ghost use Rattle.pawn_outside.specs.OnlyRead.{OnlyRead};
ghost use Rattle.pawn_outside.specs.Said.{Said};
ghost use Rattle.pawn_meaning.specs.View.{program_view};
ghost use Rattle.pawn_front.specs.Sourced.{IsUsable};
ghost use Rattle.command_parts.specs.Calls.{CommandCalls};
ghost use Rattle.command_parts.specs.Told.{with_faults};
ghost use Rattle.commands.specs.Usages.{Measures, Usages, Uses, used_text};

use super::lines::say_warnings;
use super::sources::stop_of;
use super::usage_lines::say_usage;
use command_parts::{Status, Stop, tell_stop, told};
use pawn_base::Memory;
use pawn_front::{Sourced, program};
use pawn_outside::{Files, Sink, SinkFault};
use pawn_usage::Usage;
use std::alloc::Global;

/// What a source means, and what its calls need of the stack.
#[derive(Drop)]
pub struct Used {
    pub sourced: Sourced,
    pub usage: Usage,
}

/// Tells the warnings of a source, and what room its program runs in without a lack of stack.
pub fn usage<F: Files, S: Sink>(alloc: Global, src: &str, files: &mut F, out: &mut S) -> Status
    ensures answer { Usages (with_faults (Said S.taken S.faults S.has_room)) src.now
        (F.held files.old) (F.held files.new) (out.old, F.faults files.old)
        (out.new, F.faults files.new) result }
    ensures calls { CommandCalls F.faults F.never_fails files.old files.new result }
{
    match used_source(alloc, src, files) {
        Ok(used) => told(Status::Ok, say_used(&used, out)),
        Err(stop) => tell_stop(stop, out),
    }
}

/// What the calls of a source's program need, by the source's name.
fn used_source<F: Files>(alloc: Global, src: &str, files: &mut F) -> Result<Used, Stop>
    ensures calls { OnlyRead F.held F.faults F.never_fails files.old files.new
        (result ≡ Err Stop.FileFault) }
    ensures answer { Uses (F.held files.old) src.now result }
{
    match program(alloc, src, files) {
        Ok(sourced) => measure(alloc, sourced),
        Err(fault) => Err(stop_of(alloc, src, fault)),
    }
}

/// What the calls of a program need.
fn measure(alloc: Global, sourced: Sourced) -> Result<Used, Stop>
    requires { IsUsable (program_view sourced.program) sourced.names }
    ensures { Measures sourced result }
{
    match pawn_usage::usage(alloc, &sourced.program) {
        Ok(usage) => Ok(Used { sourced, usage }),
        Err(Memory) => Err(Stop::NoMemory),
    }
}

/// Writes the warnings, and the use behind them.
fn say_used<S: Sink>(used: &Used, out: &mut S) -> Result<(), SinkFault>
    ensures { Said S.taken S.faults S.has_room out.old out.new (used_text used.now) result }
{
    match say_warnings(used.sourced.warnings.as_slice(), out) {
        Ok(()) => say_usage(used.sourced.names.as_slice(), &used.usage, out),
        Err(SinkFault) => Err(SinkFault),
    }
}
