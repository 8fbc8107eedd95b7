ghost use Rattle.std.specs.Prelude.{◌≡◌, IfOk};
ghost use Rattle.amx_ops.specs.declared.amx.Amx.{Amx};
ghost use Rattle.amx_format.specs.File.{IsFile};
ghost use Rattle.host_embed.specs.Loads.{Loads, first_of};
ghost use Rattle.host_embed.specs.Loads as loads;
ghost use Rattle.host_embed.specs.Modes as modes;

use super::load_fault::LoadFault;
use super::modes::number_of;
use amx_format::{file_size, read};
use amx_image::{ImageBuffer, digest};
use amx_machine::{Machine, Mode};
use amx_verify::{Verified, verify};
use pawn_base::Memory;
use std::alloc::Global;
use std::marker::Model;

/// A machine with what its host needs beside it. Contracts see the machine, the digest of its file,
/// and the bytes of the image that was saved last. Each call may be made in each mode: what the
/// mode doesn't allow is refused. Only [`Held::load`] takes memory.
#[derive(Drop)]
pub struct Held {
    pub(crate) machine: Machine,
    pub(crate) digest: [u8; 32],
    /// Has room for an image of the machine.
    pub(crate) image: ImageBuffer,
}

impl Model for Held {
    ghost use Rattle.std.specs.Prelude.{◌≡◌, ◌+◌, ◌*◌};
    ghost use Rattle.amx_step.specs.Machine.{cell_count};
    ghost use Rattle.host_embed.specs.Held.{Held};

    ghost Value = { Held };

    ghost view = { λ held. record {
      machine = held.machine;
      digest = held.digest;
      image = held.image.bytes;
    } };

    ghost invariant = { λ held. held.image.room ≡ 72 + 4 * cell_count held.machine.amx };
}

impl Held {
    /// The machine of the valid file that bytes are, in its first state, or their first fault. The
    /// bytes aren't kept.
    pub fn load(alloc: Global, bytes: &[u8]) -> Result<Held, LoadFault>
        ensures { Loads bytes.now result }
    {
        let amx = match read(alloc, bytes) {
            Ok(amx) => amx,
            Err(fault) => return Err(LoadFault::Format(fault)),
        };
        let verified = match verify(alloc, amx) {
            Ok(verified) => verified,
            Err(fault) => return Err(LoadFault::Invalid(fault)),
        };
        match held_of(alloc, verified, bytes) {
            Ok(held) => Ok(held),
            Err(Memory) => Err(LoadFault::Memory),
        }
    }

    /// The mode, which says which calls may come next.
    pub fn mode(&self) -> Mode
        ensures { result ≡ self.now.machine.mode }
    {
        self.machine.mode()
    }

    /// Its number: 0 loaded, 1 running, 2 at a sleep, 3 waiting for a native, 4 ended by a halt, 5
    /// by an error.
    pub fn mode_number(&self) -> i32
        ensures { result ≡ modes.number_of self.now.machine.mode }
    {
        number_of(self.machine.mode())
    }
}

/// The machine of a verified file, by its bytes.
fn held_of(alloc: Global, verified: Verified, bytes: &[u8]) -> Result<Held, Memory>
    requires { IsFile bytes.now verified }
    ensures { IfOk result (λ held. held ≡ first_of bytes.now verified) }
{
    let digest = digest_of(bytes);
    let machine = Machine::load_file(alloc, verified, bytes)?;
    match ImageBuffer::new(alloc, &machine) {
        Ok(image) => Ok(Held {
            machine,
            digest,
            image,
        }),
        Err(Memory) => {
            drop(machine);
            Err(Memory)
        }
    }
}

/// The digest of a file, of so many bytes as its header counts.
fn digest_of(bytes: &[u8]) -> [u8; 32]
    requires { (amx : Amx) × IsFile bytes.now amx }
    ensures { result ≡ loads.digest_of bytes.now }
{
    let size = file_size(bytes) as usize;
    digest(&bytes[..size])
}
