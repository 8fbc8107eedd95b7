ghost use Rattle.std.specs.Prelude.{◌≡◌, Err, IfOk};
ghost use Rattle.host_script.specs.Ranges.{IsScript};
ghost use Rattle.amx_ops.specs.declared.amx.Amx.{Amx};
ghost use Rattle.amx_format.specs.File.{IsFile};
ghost use Rattle.pawn_outside.specs.OnlyRead.{OnlyRead};
ghost use Rattle.command_parts.specs.Program.{digest_of, IsDigestedOf, IsProgramRead};

use super::read::{FILE_LIMIT, read_bytes};
use super::script::read_script_file;
use super::stop::Stop;
use super::valid::valid_file;
use amx_format::file_size;
use amx_image::digest;
use amx_verify::Verified;
use pawn_base::Bytes;
use pawn_outside::Files;
use script_reader::Script;
use std::alloc::Global;

/// A valid file with its digest, and the script of its natives.
#[derive(Drop)]
pub struct Program {
    pub file: Verified,
    /// Of the bytes that the file's header counts.
    pub digest: [u8; 32],
    pub script: Script,
}

/// A program, with the bytes that its file was read from.
#[derive(Drop)]
pub struct ReadProgram {
    pub program: Program,
    pub bytes: Bytes,
}

/// A valid file with its digest.
#[derive(Drop)]
struct Digested {
    file: Verified,
    digest: [u8; 32],
}

/// Reads a file and a script by their names. The file's bytes are kept, for its machine.
pub fn read_program<F: Files>(
    alloc: Global,
    amx: &str,
    script: &str,
    files: &mut F,
) -> Result<ReadProgram, Stop>
    ensures calls { OnlyRead F.held F.faults F.never_fails files.old files.new
        (result ≡ Err Stop.FileFault) }
    ensures answer { IsProgramRead (F.held files.old) amx.now script.now result }
    ensures ranges { IfOk result (λ it. IsScript it.program.script) }
{
    let bytes = read_bytes(alloc, amx, FILE_LIMIT, files)?;
    let digested = digested_file(alloc, bytes.as_slice())?;
    let script = read_script_file(alloc, script, files)?;
    let Digested { file, digest } = digested;
    let program = Program {
        file,
        digest,
        script,
    };
    Ok(ReadProgram { program, bytes })
}

/// The valid file that bytes are, with its digest.
fn digested_file(alloc: Global, bytes: &[u8]) -> Result<Digested, Stop>
    ensures { IsDigestedOf bytes.now result }
{
    match valid_file(alloc, bytes) {
        Ok(file) => Ok(Digested {
            file,
            digest: digest_of(bytes),
        }),
        Err(stop) => Err(stop),
    }
}

/// The digest of a file, of so many bytes as its header counts.
fn digest_of(bytes: &[u8]) -> [u8; 32]
    requires { (amx : Amx) × IsFile bytes.now amx }
    ensures { result ≡ digest_of bytes.now }
{
    let size = file_size(bytes) as usize;
    digest(&bytes[..size])
}
