ghost use Rattle.std.specs.Prelude.{◌≡◌, ◌<◌, ◌≤◌, ◌+◌, ◌^◌, IfOk, IfSome, length};
ghost use Rattle.host_script.specs.Ranges.{IsScript};
ghost use Rattle.amx_ops.specs.Writable.{cells_limit};
ghost use Rattle.amx_machine.specs.declared.mode.Mode.TheVariants as mode;
ghost use Rattle.host_run.specs.Bound.{bound_of};
ghost use Rattle.host_run.specs.Stands.{IsAwake};

use amx_machine::Machine;
use amx_ops::{Amx, Name, Record};
use amx_verify::{Verified, verify};
use host_run::{Bound, SessionEnd, bind, session};
use host_script::Script;
use pawn_base::{Bytes, Cells, List, Memory};
use pawn_outside::MemorySink;
use script_reader::read_script;
use std::alloc::Global;

/// The data of each file: a cell, an unpacked text with a negative character, a packed text that
/// ends within its cell, a text whose first byte is 0, and one without an end.
const DATA: [i32; 8] = [7, 65, -5, 0, 0x4869_0041, 0x0041_4243, 0, 0x4142_4344];

/// What a session came to.
#[derive(Clone, Copy, Debug, PartialEq, Eq)]
pub struct Came {
    pub steps: u64,
    pub end: SessionEnd,
    /// The script's position and PRI behind it.
    pub position: u32,
    pub pri: i32,
}

/// A file that begins at its first instruction, with two natives and room for 64 cells.
fn file(alloc: Global, code: &[i32], natives: List<Record>) -> Result<Amx, Memory>
    requires { (length code.now ≤ 64) × (length natives < 2 ^ 31) }
    ensures memory { IfOk result (λ amx.
        length amx.code + length amx.store + amx.room ≤ cells_limit) }
    ensures publics { IfOk result (λ amx. length amx.publics < 2 ^ 31) }
    ensures natives { IfOk result (λ amx. length amx.natives < 2 ^ 31) }
{
    let code = Cells::from_slice(alloc, code);
    let store = Cells::from_slice(alloc, &DATA);
    let (code, store) = (code?, store?);
    Ok(Amx {
        flags: 0,
        version: 8,
        code,
        store,
        room: 64,
        entry: 0,
        publics: List::new(alloc),
        natives,
        libraries: List::new(alloc),
        variables: List::new(alloc),
        tags: List::new(alloc),
    })
}

fn native(alloc: Global, name: &str) -> Result<Record, Memory> {
    let bytes = Bytes::from_slice(alloc, name.as_bytes())?;
    let name = Name::from_bytes(alloc, bytes)?;
    Ok(Record { address: 0, name })
}

fn natives(alloc: Global, names: (&str, &str)) -> Result<List<Record>, Memory>
    ensures { IfOk result (λ natives. length natives < 2 ^ 31) }
{
    let mut natives = List::new(alloc);
    natives.push(native(alloc, names.0)?)?;
    natives.push(native(alloc, names.1)?)?;
    Ok(natives)
}

/// The file of some code, with natives of these names, verified.
pub fn verified(alloc: Global, code: &[i32], names: (&str, &str)) -> Option<Verified>
    ensures { IfSome result (λ verified. length verified.natives < 2 ^ 31) }
{
    if code.len() > 64 {
        return None;
    }
    let natives = natives(alloc, names).ok()?;
    let amx = file(alloc, code, natives).ok()?;
    verify(alloc, amx).ok()
}

/// Runs a started machine under a script.
fn play_on(
    machine: &mut Machine,
    bound: &mut Bound,
    script: &Script,
    steps: u64,
    out: &mut MemorySink,
) -> Came
    requires awake { IsAwake machine.old.mode }
    requires script { IsScript script.now }
    requires bound { bound.old ≡ bound_of script.now machine.old.amx.natives }
{
    let mut position = 0;
    let (steps, end) = session(machine, bound, script, &mut position, steps, out);
    let pri = machine.registers().pri;
    Came {
        steps,
        end,
        position,
        pri,
    }
}

/// The natives of a file, bound to a script.
fn bound_to(alloc: Global, verified: &Verified, script: &Script) -> Option<Bound>
    requires { (IsScript script.now) × (length verified.now.natives < 2 ^ 31) }
    ensures { IfSome result (λ bound. bound ≡ bound_of script.now verified.now.natives) }
{
    bind(alloc, verified, script).ok()
}

/// A file's machine, started at main.
fn started(alloc: Global, verified: Verified) -> Option<Machine>
    ensures running { IfSome result (λ machine. machine.mode ≡ mode.Running) }
    ensures file { IfSome result (λ machine. machine.amx ≡ verified) }
{
    let Ok(mut machine) = Machine::load(alloc, verified) else {
        return None;
    };
    match machine.start(-1, &[]) {
        Ok(()) => Some(machine),
        Err(_) => None,
    }
}

/// The same of a file's machine.
fn play_under(
    alloc: Global,
    verified: Verified,
    script: &Script,
    steps: u64,
    out: &mut MemorySink,
) -> Option<Came>
    requires { (IsScript script.now) × (length verified.natives < 2 ^ 31) }
{
    let mut bound = bound_to(alloc, &verified, script)?;
    let mut machine = started(alloc, verified)?;
    Some(play_on(&mut machine, &mut bound, script, steps, out))
}

/// Runs some code under a script for so many steps at most. None where something else is wrong.
pub fn play(
    alloc: Global,
    code: &[i32],
    script: &str,
    steps: u64,
    out: &mut MemorySink,
) -> Option<Came> {
    let verified = verified(alloc, code, ("p", "q"))?;
    let script = read_script(alloc, script.as_bytes()).ok()?;
    play_under(alloc, verified, &script, steps, out)
}

/// Whether a session writes this text and comes to this.
pub fn comes_to(
    alloc: Global,
    code: &[i32],
    script: &str,
    bound: u64,
    text: &str,
    wanted: (u64, SessionEnd, u32),
) -> bool {
    let Ok(mut out) = MemorySink::new(alloc, 200, &[]) else {
        return false;
    };
    match play(alloc, code, script, bound, &mut out) {
        Some(came) => {
            out.bytes() == text.as_bytes() && (came.steps, came.end, came.position) == wanted
        }
        None => false,
    }
}
