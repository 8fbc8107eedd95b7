ghost use Rattle.std.specs.Prelude.{◌≡◌, ◌+◌, ◌<◌, ◌≤◌, ◌^◌, Err, IfOk, length, All};
ghost use Rattle.host_script.specs.Ranges.{IsScript};
ghost use Rattle.amx_ops.specs.Moves.{name_of};
ghost use Rattle.pawn_outside.specs.OnlyRead.{OnlyRead};
ghost use Rattle.host_plan.specs.Plans.{AreFiles, IsWord};
ghost use Rattle.host_plan.specs.declared.plan.TheConstants.{MOST_MACHINES};
ghost use Rattle.command_many.specs.Machines.{AddsOf, AddsProgram, AreHosted, IsServed};

use amx_ops::Record;
use amx_verify::Verified;
use command_parts::{Stop, read_script_file, read_valid, unregistered};
use host_many::Host;
use host_plan::MachineFiles;
use host_run::{BindFault, bind};
use host_script::Script;
use pawn_outside::Files;
use std::alloc::Global;

/// Makes the machines of a plan, one after another: a file is read and checked, then its script,
/// then its natives are looked for there.
pub fn make_machines<F: Files>(
    alloc: Global,
    machines: &[MachineFiles],
    files: &mut F,
) -> Result<Host, Stop>
    requires names { All AreFiles machines.now }
    requires few { length machines.now ≤ MOST_MACHINES }
    ensures calls { OnlyRead F.held F.faults F.never_fails files.old files.new
        (result ≡ Err Stop.FileFault) }
    ensures answer { AreHosted (F.held files.old) machines.now result }
{
    let mut host = Host::new(alloc);
    for machine in machines {
        make_machine(alloc, machine, files, &mut host)?;
    }
    Ok(host)
}

/// Makes one machine more.
fn make_machine<F: Files>(
    alloc: Global,
    machine: &MachineFiles,
    files: &mut F,
    host: &mut Host,
) -> Result<(), Stop>
    requires names { AreFiles machine.now }
    requires few { length host.old + 1 < 2 ^ 32 }
    ensures calls { OnlyRead F.held F.faults F.never_fails files.old files.new
        (result ≡ Err Stop.FileFault) }
    ensures answer { AddsOf (F.held files.old) machine.now host.old result host.new }
{
    let file = read_valid(alloc, text_of(machine.amx.as_slice()), files)?;
    let script = read_script_file(alloc, text_of(machine.script.as_slice()), files)?;
    add_machine(alloc, file, script, host)
}

/// A file's name as text.
fn text_of(name: &[u8]) -> &str
    requires { IsWord name.now }
    ensures { result.now ≡ name.now }
{
    match str::from_utf8(name) {
        Ok(text) => text,
        Err(_) => unreachable!(),
    }
}

/// Adds a machine to a host, where its natives are served.
fn add_machine(alloc: Global, file: Verified, script: Script, host: &mut Host) -> Result<(), Stop>
    requires few { length host.old + 1 < 2 ^ 32 }
    requires script { IsScript script }
    requires natives { length file.natives < 2 ^ 31 }
    requires publics { length file.publics < 2 ^ 31 }
    ensures { AddsProgram file script host.old result host.new }
{
    // Behind a refusal the host has dropped the file, with the name that is told.
    look_up(alloc, &file, &script)?;
    match host.add(alloc, file, script) {
        Ok(_number) => Ok(()),
        Err(_) => Err(Stop::NoMemory),
    }
}

/// Looks for the natives of a file in a script.
fn look_up(alloc: Global, file: &Verified, script: &Script) -> Result<(), Stop>
    requires script { IsScript script.now }
    requires natives { length file.now.natives < 2 ^ 31 }
    ensures { IsServed file.now script.now result }
{
    match bind(alloc, file, script) {
        Ok(_bound) => Ok(()),
        Err(BindFault::Unregistered(number)) => {
            let natives = file.amx().natives.as_slice();
            Err(unregistered(alloc, name_at(natives, number)))
        }
        Err(BindFault::Memory) => Err(Stop::NoMemory),
    }
}

/// The name of a native by its number.
fn name_at(natives: &[Record], number: u32) -> &[u8]
    ensures { result.now ≡ name_of natives.now number }
{
    match natives.get(number as usize) {
        None => b"",
        Some(native) => native.name.as_slice(),
    }
}
