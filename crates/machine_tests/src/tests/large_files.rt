ghost use Rattle.std.specs.Prelude.{◌≤◌};

use super::base::{header, put_records};
use amx_format::{FormatFault, read};
use pawn_base::{Bytes, Memory};
use std::alloc::Global;
use std::test::Fail;

/// The greatest file.
const LIMIT: usize = 67_108_864;

fn has_no_magic(alloc: Global, bytes: &[u8]) -> bool {
    match read(alloc, bytes) {
        Ok(_amx) => false,
        Err(fault) => fault == FormatFault::Magic,
    }
}

/// Whether bytes of one kind, as many as the greatest file has, are told by their magic number.
fn is_no_file(alloc: Global, byte: u8) -> Result<bool, Fail> {
    let bytes = vec![in alloc; byte; LIMIT]?;
    Ok(has_no_magic(alloc, bytes.as_slice()))
}

#[test]
fn bytes_of_one_kind(rt: HostRuntime) -> Result<(), Fail> {
    assert!(rt; is_no_file(rt.alloc(), 0)? && is_no_file(rt.alloc(), 0xFF)?);
    Ok(())
}

fn put_many(out: &mut Bytes, count: u32, byte: u8) -> Result<(), Memory> {
    for _ in 0..count {
        out.push(byte)?;
    }
    Ok(())
}

/// A plain file without code, with so many natives, all of one name of so many bytes.
fn natives(alloc: Global, count: u32, length: u32) -> Result<Bytes, Memory>
    requires { (count ≤ 8388600) × (length ≤ 100000) }
{
    let names = 56 + 8 * count;
    let cod = names + 8 + length;
    let places = [
        cod,
        cod,
        cod,
        cod,
        u32::MAX,
        56,
        56,
        names,
        names,
        names,
        names,
    ];
    let mut out = header(alloc, cod, &places)?;
    put_records(&mut out, count, names + 2)?;
    out.append(&[31, 0])?;
    put_many(&mut out, length, b'n')?;
    put_many(&mut out, 6, 0)?;
    Ok(out)
}

/// How many natives are read of bytes, or none for want of memory.
fn counted(alloc: Global, bytes: &[u8]) -> Option<usize> {
    match read(alloc, bytes) {
        Ok(amx) => Some(amx.natives.len()),
        Err(FormatFault::Memory) => None,
        Err(_) => Some(0),
    }
}

#[test]
fn tables_that_fill_a_file(rt: HostRuntime) -> Result<(), Fail> {
    let bytes = natives(rt.alloc(), 8_388_600, 0)?;
    assert!(rt; bytes.len() == LIMIT);
    assert!(rt; counted(rt.alloc(), bytes.as_slice()) == Some(8_388_600));
    Ok(())
}

/// How many natives are read of a file that has so many, all of one name of so many bytes, and the
/// file's size.
fn with_name(alloc: Global, count: u32, length: u32) -> Result<(Option<usize>, usize), Memory>
    requires { (count ≤ 100000) × (length ≤ 100000) }
{
    let bytes = natives(alloc, count, length)?;
    Ok((counted(alloc, bytes.as_slice()), bytes.len()))
}

/// Records may share a long name, whose bytes are kept once.
#[test]
fn a_long_name_of_many(rt: HostRuntime) {
    assert!(rt; with_name(rt.alloc(), 700, 100_000) == Ok((Some(700), 105_664)));
    assert!(rt; with_name(rt.alloc(), 100_000, 700) == Ok((Some(100_000), 800_764)));
    assert!(rt; with_name(rt.alloc(), 100_000, 100_000) == Ok((Some(100_000), 900_064)));
}
