ghost use Rattle.std.specs.Prelude.{◌≡◌};
ghost use Rattle.std.specs.Box.Ownership.{box_owns};
ghost use Rattle.std_heap.specs.contracts.GlobalAllocator.TheImpl.{ghosts};
ghost use Rattle.host_compile.specs.contracts.sources.Sources.{the_row};
ghost use Rattle.host_compile.specs.Coded.{sources_code};
ghost use Rattle.host_compile.specs.Sources.{Sources};

use super::sources::Sources;
use host_handle::Loose;
use std::alloc::Global;
use std::marker::Model;

/// What C holds: a pointer that owns sources.
#[repr(C)]
pub struct SulkhenSources {
    at: *mut u8,
    alloc: Global,
    pub ghost value: { Sources } by { sources_code },
}

impl Model for SulkhenSources {
    ghost use Rattle.std.specs.Box.Ownership.{box_owns};
    ghost use Rattle.std_heap.specs.contracts.GlobalAllocator.TheImpl.{ghosts};
    ghost use Rattle.host_compile.specs.contracts.sources.Sources.{the_row};

    ghost also_owns = { λ p. box_owns (ghosts.dealloc_token p.alloc) the_row p.at p.value };
}

impl SulkhenSources {
    ghost use Rattle.std.specs.Borrow.{sem};
    ghost use Rattle.host_compile.specs.Lending.{LendsSources};

    /// Lends the sources.
    pub fn sources_mut(&mut self) -> &mut Sources
        ensures* writes_back { sem 𝓛 (LendsSources self.entry result) }
        ensures value { result.now ≡ self.old.value }
    {
        unsafe { &mut *(self.at as *mut Sources) }
    }

    /// The sources, which are freed with their box.
    pub fn into_sources(self) -> Box<Sources>
        ensures { result.value ≡ self.value }
    {
        self.into_parts().into_box()
    }

    /// The pointer.
    fn into_parts(self) -> Loose<Sources, Global>
        ensures { result.value ≡ self.value }
    {
        let SulkhenSources { at, alloc } = self;
        Loose {
            at: at as *mut Sources,
            alloc,
        }
    }
}
