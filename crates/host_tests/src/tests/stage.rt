ghost use Rattle.std.specs.Prelude.{◌≡◌, ◌<◌, ◌+◌, ◌^◌, IfSome, length};

use amx_format::read;
use amx_verify::{Verified, verify};
use host_many::{Host, Served, Turn};
use pawn_base::Bytes;
use pawn_outside::MemorySink;
use script_reader::read_script;
use std::alloc::Global;

/// A valid file.
fn verified(alloc: Global, file: &[u8]) -> Option<Verified>
    ensures natives { IfSome result (λ it. length it.natives < 2 ^ 31) }
    ensures publics { IfSome result (λ it. length it.publics < 2 ^ 31) }
{
    let amx = read(alloc, file).ok()?;
    verify(alloc, amx).ok()
}

/// One machine more of a file under a script, while there are few.
pub fn add(alloc: Global, host: &mut Host, file: &[u8], script: &str) -> Option<u32>
    requires { length host.old < 1000 }
    ensures { IfSome result (λ number. length host.new ≡ length host.old + 1) }
{
    let verified = verified(alloc, file)?;
    let script = read_script(alloc, script.as_bytes()).ok()?;
    host.add(alloc, verified, script).ok()
}

/// Starts a machine at main, and tells whether memory was there for the name.
pub fn start(alloc: Global, host: &mut Host, machine: u32, out: &mut MemorySink) -> bool
    requires { machine < length host.old }
    ensures { length host.new ≡ length host.old }
{
    let Ok(name) = Bytes::from_slice(alloc, b"main") else {
        return false;
    };
    let events = [Turn::Start { machine, name }];
    host.serve_many(&events, out) == Served::Done
}

/// Gives a machine steps.
pub fn give(host: &mut Host, machine: u32, steps: u64, out: &mut MemorySink) -> Served
    requires { machine < length host.old }
    ensures { length host.new ≡ length host.old }
{
    let events = [Turn::Go { machine, steps }];
    host.serve_many(&events, out)
}
