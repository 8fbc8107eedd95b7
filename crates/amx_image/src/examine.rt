ghost use Rattle.std.specs.Prelude.{◌≡◌, ◌+◌, ◌-◌, ◌*◌, ◌/◌, ◌≤◌, length, IsTrue};
ghost use Rattle.amx_ops.specs.State.{first_hea};
ghost use Rattle.amx_format.specs.Numbers.{cells_at};
ghost use Rattle.amx_image.specs.Image.{registers_at};
ghost use Rattle.amx_image.specs.Faults as faults;
ghost use Rattle.amx_image.specs.Faults.{state_fault, fault_behind, first_fault};
ghost use Rattle.amx_image.specs.Examined.{Tells, IsVersionOf};
ghost use Rattle.amx_image.specs.declared.version.Version.TheVariants as kind;
ghost use Rattle.amx_ops.specs.Writable.{cells_limit};

use super::fault;
use super::fault::ImageFault;
use super::number::{read_cell, read_half, read_registers, read_word};
use super::place::{CELLS, COUNT, DIGEST, MAGIC, VERSION, ZERO};
use super::version::Version;
use amx_verify::Verified;

/// The version of bytes that are an image for a file, where the machine has so many cells.
#[tactic(auto, unfolding(crate::specs::Faults::first_fault, crate::specs::Faults::fault_behind))]
pub fn examine(
    verified: &Verified,
    count: u32,
    digest: &[u8; 32],
    bytes: &[u8],
) -> Result<Version, ImageFault>
    requires { count ≤ cells_limit }
    ensures fault { Tells (first_fault verified.now count digest.now bytes.now) result }
    ensures version { IsVersionOf bytes.now result }
{
    if bytes.len() < CELLS {
        return Err(ImageFault::Short);
    }
    if !has_magic(bytes) {
        return Err(ImageFault::Magic);
    }
    let Some(version) = version_in(bytes) else {
        return Err(ImageFault::Version);
    };
    if !has_digest(bytes, digest) {
        return Err(ImageFault::Digest);
    }
    if !has_count(version, count, bytes) {
        return Err(ImageFault::Length);
    }
    examine_state(verified, count, version, bytes)?;
    Ok(version)
}

/// Registers and cells.
#[tactic(auto, unfolding(crate::specs::Faults::state_fault))]
fn examine_state(
    verified: &Verified,
    count: u32,
    version: Version,
    bytes: &[u8],
) -> Result<(), ImageFault>
    requires few { count ≤ cells_limit }
    requires front { CELLS ≤ length bytes.now }
    requires long { version ≡ kind.Whole → length bytes.now ≡ CELLS + 4 * count }
    ensures { Tells (state_fault verified.now count version (registers_at bytes.now) bytes.now)
        result }
{
    let registers = read_registers(bytes);
    let hea = registers.hea.cast_unsigned();
    let stk = registers.stk.cast_unsigned();
    if !is_heap(verified, hea) {
        return Err(ImageFault::Register(fault::HEA));
    }
    if !is_stack(count, hea, stk) {
        return Err(ImageFault::Register(fault::STK));
    }
    if !verified.starts_at(registers.cip.cast_unsigned()) {
        return Err(ImageFault::Register(fault::CIP));
    }
    if !has_cells(version, count, hea, stk, bytes) {
        return Err(cells_fault(version));
    }
    Ok(())
}

fn has_magic(bytes: &[u8]) -> bool
    requires { CELLS ≤ length bytes.now }
    ensures { result ≡ faults.has_magic bytes.now }
{
    &bytes[..4] == MAGIC.as_slice()
}

/// The version, where its number is one and 0 stands behind it.
fn version_in(bytes: &[u8]) -> Option<Version>
    requires { CELLS ≤ length bytes.now }
    ensures { result ≡ faults.version_in bytes.now }
{
    if read_half(bytes, ZERO) == 0 {
        Version::of(read_half(bytes, VERSION))
    } else {
        None
    }
}

fn has_digest(bytes: &[u8], digest: &[u8; 32]) -> bool
    requires { CELLS ≤ length bytes.now }
    ensures { result ≡ faults.has_digest digest.now bytes.now }
{
    &bytes[DIGEST..DIGEST + 32] == digest.as_slice()
}

/// Whether an image is of so many cells, and in version 1 has them all.
fn has_count(version: Version, count: u32, bytes: &[u8]) -> bool
    requires few { count ≤ cells_limit }
    requires front { CELLS ≤ length bytes.now }
    ensures has { result ≡ faults.has_count version count bytes.now }
    ensures long { IsTrue result → version ≡ kind.Whole → length bytes.now ≡ CELLS + 4 * count }
{
    let same = read_word(bytes, COUNT) == count;
    match version {
        Version::Whole => same && bytes.len() == CELLS + 4 * count as usize,
        Version::Live => same,
    }
}

/// Whether HEA is in whole cells and not below the data's end.
fn is_heap(verified: &Verified, hea: u32) -> bool
    ensures { result ≡ faults.is_heap (first_hea verified.now) hea }
{
    let first = 4 * verified.amx().store.len() as u32;
    hea % 4 == 0 && hea < 1 << 31 && first <= hea
}

/// Whether STK is in whole cells, from the heap to the top.
fn is_stack(count: u32, hea: u32, stk: u32) -> bool
    requires { count ≤ cells_limit }
    ensures is { result ≡ faults.is_stack count hea stk }
    ensures order { IsTrue result → (hea ≤ stk) × (stk ≤ 4 * count) }
{
    stk % 4 == 0 && hea <= stk && stk <= 4 * count
}

/// Whether in version 1 the dead cells are 0, and in version 2 the live ones are all there.
fn has_cells(version: Version, count: u32, hea: u32, stk: u32, bytes: &[u8]) -> bool
    requires few { count ≤ cells_limit }
    requires order { (hea ≤ stk) × (stk ≤ 4 * count) }
    requires long { version ≡ kind.Whole → length bytes.now ≡ CELLS + 4 * count }
    ensures { result ≡ faults.has_cells version count hea stk bytes.now }
{
    match version {
        Version::Whole => are_zero(bytes, CELLS + hea as usize, (stk - hea) as usize / 4),
        Version::Live => bytes.len() == CELLS + (hea + (4 * count - stk)) as usize,
    }
}

fn cells_fault(version: Version) -> ImageFault
    ensures { result ≡ faults.cells_fault version }
{
    match version {
        Version::Whole => ImageFault::DeadCell,
        Version::Live => ImageFault::LiveLength,
    }
}

/// Whether so many cells from a place on are 0.
fn are_zero(bytes: &[u8], place: usize, count: usize) -> bool
    requires { place + 4 * count ≤ length bytes.now }
    ensures { result ≡ faults.are_zero (cells_at bytes.now place count) }
{
    for index in 0..count {
        if read_cell(bytes, place + 4 * index) != 0 {
            return false;
        }
    }
    true
}
