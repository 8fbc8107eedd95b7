ghost use Rattle.std.specs.Prelude.{◌≡◌, Err};
ghost use Rattle.pawn_outside.specs.OnlyRead.{OnlyRead};
ghost use Rattle.command_parts.specs.ValidFile.{IsValidRead, IsValidFileOf};
ghost use Rattle.command_parts.specs.ValidFile.{unread, invalid, place_of};

use super::read::{FILE_LIMIT, read_bytes};
use super::stop::Stop;
use amx_format::{FormatFault, read};
use amx_verify::{Verified, VerifyFault, verify};
use pawn_outside::Files;
use std::alloc::Global;

/// Reads a file by its name, and verifies it.
pub fn read_valid<F: Files>(alloc: Global, name: &str, files: &mut F) -> Result<Verified, Stop>
    ensures calls { OnlyRead F.held F.faults F.never_fails files.old files.new
        (result ≡ Err Stop.FileFault) }
    ensures answer { IsValidRead (F.held files.old) name.now result }
{
    let bytes = read_bytes(alloc, name, FILE_LIMIT, files)?;
    valid_file(alloc, bytes.as_slice())
}

/// The file that bytes are, verified.
pub fn valid_file(alloc: Global, bytes: &[u8]) -> Result<Verified, Stop>
    ensures { IsValidFileOf bytes.now result }
{
    let amx = match read(alloc, bytes) {
        Ok(amx) => amx,
        Err(fault) => return Err(unread(fault)),
    };
    match verify(alloc, amx) {
        Ok(verified) => Ok(verified),
        Err(fault) => Err(invalid(fault)),
    }
}

/// The stop at bytes that are no file.
fn unread(fault: FormatFault) -> Stop
    ensures { result ≡ unread fault }
{
    match fault.number() {
        Some(kind) => Stop::Invalid(kind),
        None => Stop::NoMemory,
    }
}

/// The stop at a file that isn't valid.
fn invalid(fault: VerifyFault) -> Stop
    ensures { result ≡ invalid fault }
{
    match fault.number() {
        Some(kind) => Stop::InvalidAt {
            kind,
            at: place_of(fault),
        },
        None => Stop::NoMemory,
    }
}

/// The address of an instruction, or the number of an entry, where a file isn't valid.
fn place_of(fault: VerifyFault) -> i64
    ensures { result ≡ place_of fault }
{
    match fault {
        VerifyFault::Opcode(at)
        | VerifyFault::Cut(at)
        | VerifyFault::Target(at)
        | VerifyFault::CaseTable(at)
        | VerifyFault::Native(at)
        | VerifyFault::Register(at)
        | VerifyFault::ByteCount(at) => i64::from(at),
        VerifyFault::Entry(number) => i64::from(number),
        VerifyFault::Memory => 0,
    }
}
