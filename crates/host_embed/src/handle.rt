ghost use Rattle.std.specs.Prelude.{◌≡◌};
ghost use Rattle.std.specs.Box.Ownership.{box_owns};
ghost use Rattle.std_heap.specs.contracts.GlobalAllocator.TheImpl.{ghosts};
ghost use Rattle.host_embed.specs.contracts.held.Held.{the_row};
ghost use Rattle.host_embed.specs.Held.{Held};

use super::held::Held;
use host_handle::Loose;
use std::alloc::Global;
use std::marker::Model;

/// What C holds: a pointer that owns an embedded machine.
#[repr(C)]
pub struct Sulkhen {
    at: *mut u8,
    alloc: Global,
    pub ghost value: { Held },
}

impl Model for Sulkhen {
    ghost use Rattle.std.specs.Box.Ownership.{box_owns};
    ghost use Rattle.std_heap.specs.contracts.GlobalAllocator.TheImpl.{ghosts};
    ghost use Rattle.host_embed.specs.contracts.held.Held.{the_row};

    ghost also_owns = { λ p. box_owns (ghosts.dealloc_token p.alloc) the_row p.at p.value };
}

impl Sulkhen {
    ghost use Rattle.std.specs.Borrow.{sem};
    ghost use Rattle.host_embed.specs.Lending.{LendsHeld};

    /// Lends the machine.
    pub fn held_mut(&mut self) -> &mut Held
        ensures* writes_back { sem 𝓛 (LendsHeld self.entry result) }
        ensures value { result.now ≡ self.old.value }
    {
        unsafe { &mut *(self.at as *mut Held) }
    }

    /// The machine, which is freed with its box.
    pub fn into_held(self) -> Box<Held>
        ensures { result.value ≡ self.value }
    {
        self.into_parts().into_box()
    }

    /// The pointer.
    fn into_parts(self) -> Loose<Held, Global>
        ensures { result.value ≡ self.value }
    {
        let Sulkhen { at, alloc } = self;
        Loose {
            at: at as *mut Held,
            alloc,
        }
    }
}
