ghost use Rattle.std.specs.Prelude.{◌≡◌, Option, Some, IfOk};
ghost use Rattle.std.specs.Coded.{coded_option};
ghost use Rattle.host_compile.specs.Coded.{sources_code};
ghost use Rattle.host_compile.specs.Sources.{Sources, no_sources};
ghost use Rattle.host_compile.specs.Slots.{slot_owns};
ghost use Rattle.host_compile.specs.Compiles.{MakesIn};

use super::sources::Sources;
use host_handle::Loose;
use pawn_base::Memory;
use std::alloc::Global;
use std::marker::Model;

/// Where C has a handle put. It owns nothing before, and the sources that are made there behind;
/// from then on it is a [`SulkhenSources`](super::SulkhenSources). One that is made again forgets
/// what it owned.
#[repr(C)]
#[derive(Drop)]
pub struct SourcesSlot {
    at: *mut u8,
    alloc: Global,
    pub ghost value: { Option Sources } by { coded_option sources_code },
}

impl Model for SourcesSlot {
    ghost use Rattle.host_compile.specs.Slots.{slot_owns};

    ghost also_owns = { λ slot. slot_owns slot.alloc slot.at slot.value };
}

impl SourcesSlot {
    /// Puts sources here, none at first, or leaves the slot as it was for want of memory.
    pub fn make(&mut self, alloc: Global) -> Result<(), Memory>
        ensures { MakesIn self.old.value result self.new.value }
    {
        let sources = boxed(alloc)?;
        *self = SourcesSlot::of(sources);
        Ok(())
    }

    /// A slot with sources.
    fn of(sources: Box<Sources>) -> SourcesSlot
        ensures { result.value ≡ Some sources.value }
    {
        SourcesSlot::of_parts(Loose::of(sources))
    }

    /// A slot with what lies behind a pointer.
    fn of_parts(parts: Loose<Sources, Global>) -> SourcesSlot
        ensures { result.value ≡ Some parts.value }
    {
        let Loose { at, alloc } = parts;
        SourcesSlot {
            at: at as *mut u8,
            alloc,
        }
    }
}

/// No source, in a box.
fn boxed(alloc: Global) -> Result<Box<Sources>, Memory>
    ensures { IfOk result (λ it. it.value ≡ no_sources) }
{
    let sources = Sources::new(alloc)?;
    match Box::new(alloc, sources) {
        Ok(boxed) => Ok(boxed),
        Err(_) => Err(Memory),
    }
}
