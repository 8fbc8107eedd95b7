ghost use Rattle.std.specs.Prelude.{◌≡◌, ◌++◌, drop, length, take};
ghost use Rattle.host_compile.specs.Answers.{bytes_of, warnings_of};
ghost use Rattle.sulkhen_c.specs.Compiled.{CompilesFor, HoldsFor, MakesFor, RefusesFor, WarnsFor};
ghost use Rattle.sulkhen_c.specs.Compiled.{encoding_of, memory_code};

use super::border::copy_front;
use host_compile::{Encoding, SourcesSlot, SulkhenSources};
use host_embed::Refusal;
use pawn_base::Memory;
use std::alloc::Global;

/// The number of a name that isn't held, and of one that isn't UTF-8.
const NO_SOURCE: i32 = 3;

/// Puts a handle at `slot` that owns sources, none at first.
#[unsafe(no_mangle)]
pub extern "C" fn sulkhen_sources_new(alloc: Global, slot: &mut SourcesSlot) -> i32
    ensures { MakesFor slot.old.value result slot.new.value }
{
    memory_code(slot.make(alloc))
}

/// Frees sources with their handle.
#[unsafe(no_mangle)]
pub extern "C" fn sulkhen_sources_free(handle: SulkhenSources) {
    let _sources = handle.into_sources();
}

/// Gives a name these bytes, in place of what it held.
#[unsafe(no_mangle)]
pub extern "C" fn sulkhen_hold(handle: &mut SulkhenSources, name: &[u8], bytes: &[u8]) -> i32
    ensures { HoldsFor handle.old.value name.now bytes.now result handle.new.value }
{
    let Ok(name) = str::from_utf8(name) else {
        return NO_SOURCE;
    };
    memory_code(handle.sources_mut().hold(name, bytes))
}

/// Compiles the source of a name over all that is held, plain or compact, and keeps what it comes
/// to.
#[unsafe(no_mangle)]
pub extern "C" fn sulkhen_compile(
    alloc: Global,
    handle: &mut SulkhenSources,
    name: &[u8],
    compact: bool,
) -> i32
    ensures { CompilesFor handle.old.value name.now compact result handle.new.value }
{
    let Ok(name) = str::from_utf8(name) else {
        return NO_SOURCE;
    };
    let sources = handle.sources_mut();
    sources.compile(alloc, name, encoding_of(compact));
    sources.status()
}

/// Copies as many bytes of the file as there is room for, and tells how many there are.
#[unsafe(no_mangle)]
pub extern "C" fn sulkhen_compiled(handle: &mut SulkhenSources, out: &mut [u8]) -> usize
    ensures count { result ≡ length (bytes_of handle.old.value.answer) }
    ensures bytes { let bytes = bytes_of handle.old.value.answer in
        out.new ≡ take (length out.old) bytes ++ drop (length bytes) out.old }
    ensures kept { handle.new.value ≡ handle.old.value }
{
    let bytes = handle.sources_mut().bytes();
    copy_front(bytes, out);
    bytes.len()
}

/// How many warnings it has.
#[unsafe(no_mangle)]
pub extern "C" fn sulkhen_warnings(handle: &mut SulkhenSources) -> usize
    ensures count { result ≡ length (warnings_of handle.old.value.answer) }
    ensures kept { handle.new.value ≡ handle.old.value }
{
    handle.sources_mut().warnings().len()
}

/// One of them, from 0 on: as many bytes of its file's name as there is room for, how many there
/// are, and its line; or 20 where there is none with this number.
#[unsafe(no_mangle)]
pub extern "C" fn sulkhen_warning(
    handle: &mut SulkhenSources,
    number: usize,
    file: &mut [u8],
    size: &mut usize,
    line: &mut u32,
) -> i32
    ensures warning { WarnsFor handle.old.value.answer number result
        file.old file.new (size.old, line.old) (size.new, line.new) }
    ensures kept { handle.new.value ≡ handle.old.value }
{
    match handle.sources_mut().warnings().get(number) {
        Some(warning) => {
            let name = warning.file.as_slice();
            copy_front(name, file);
            *size = name.len();
            *line = warning.line;
            0
        }
        None => Refusal::Index.code(),
    }
}

/// The number of the rule that it breaks, 0 where it breaks none, with its file's name and its line
/// as of a warning. A file that is too large has its name told, and no line.
#[unsafe(no_mangle)]
pub extern "C" fn sulkhen_refusal(
    handle: &mut SulkhenSources,
    file: &mut [u8],
    size: &mut usize,
    line: &mut u32,
) -> i32
    ensures refusal { RefusesFor handle.old.value.answer result file.old file.new
        (size.new, line.new) }
    ensures kept { handle.new.value ≡ handle.old.value }
{
    let sources = handle.sources_mut();
    let name = sources.file();
    copy_front(name, file);
    *size = name.len();
    *line = sources.line();
    i32::from(sources.rule())
}

/// The number of an answer: 15 for want of memory.
fn memory_code(answer: Result<(), Memory>) -> i32
    ensures { result ≡ memory_code answer }
{
    match answer {
        Ok(()) => 0,
        Err(Memory) => 15,
    }
}

/// How code and data stand in the file.
fn encoding_of(compact: bool) -> Encoding
    ensures { result ≡ encoding_of compact }
{
    if compact {
        Encoding::Compact
    } else {
        Encoding::Plain
    }
}
