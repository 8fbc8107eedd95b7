ghost use Rattle.std.specs.Prelude.{codes, Ok};
ghost use Rattle.host_plan.specs.Lines.{Reads, ReadsLine};
ghost use Rattle.host_plan.specs.Words.{Lacks};

use super::plan::MachineFiles;
use super::word::{is_name, is_word, number_of, small_number_of, split_at};
use host_many::Turn;
use pawn_base::{Bytes, Memory};
use std::alloc::Global;

/// A line of a plan.
#[derive(Debug, Drop)]
pub enum Line {
    /// `machine AMX SCRIPT`.
    Machine(MachineFiles),
    /// `start I NAME`, `go I N`.
    Event(Turn),
}

/// The line that some bytes are, which have no byte 10: three words with a blank between them.
pub fn read_line(alloc: Global, text: &[u8]) -> Result<Option<Line>, Memory>
    ensures { ReadsLine text.now result }
{
    let Some((kind, rest)) = split_at(text, b' ') else {
        return Ok(None);
    };
    let Some((second, third)) = split_at(rest, b' ') else {
        return Ok(None);
    };
    if kind == b"machine".as_slice() {
        read_machine(alloc, second, third)
    } else if kind == b"start".as_slice() {
        read_start(alloc, second, third)
    } else if kind == b"go".as_slice() {
        Ok(read_go(second, third))
    } else {
        Ok(None)
    }
}

/// `machine` by the two words behind it.
fn read_machine(alloc: Global, amx: &[u8], script: &[u8]) -> Result<Option<Line>, Memory>
    requires { Lacks 32 amx.now }
    ensures { Reads (codes "machine") amx.now script.now result }
{
    if !is_word(amx) || !is_word(script) {
        return Ok(None);
    }
    let amx = Bytes::from_slice(alloc, amx)?;
    let script = Bytes::from_slice(alloc, script)?;
    Ok(Some(Line::Machine(MachineFiles { amx, script })))
}

/// `start` by the two words behind it.
fn read_start(alloc: Global, number: &[u8], name: &[u8]) -> Result<Option<Line>, Memory>
    requires { Lacks 32 number.now }
    ensures { Reads (codes "start") number.now name.now result }
{
    let Some(machine) = small_number_of(number) else {
        return Ok(None);
    };
    if !is_name(name) {
        return Ok(None);
    }
    let name = Bytes::from_slice(alloc, name)?;
    Ok(Some(Line::Event(Turn::Start { machine, name })))
}

/// `go` by the two words behind it.
fn read_go(number: &[u8], steps: &[u8]) -> Option<Line>
    requires { Lacks 32 number.now }
    ensures { Reads (codes "go") number.now steps.now (Ok result) }
{
    let machine = small_number_of(number)?;
    let steps = number_of(steps)?;
    Some(Line::Event(Turn::Go { machine, steps }))
}
