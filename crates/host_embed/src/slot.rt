ghost use Rattle.std.specs.Prelude.{◌≡◌, Option, Some, Ok, Err, IfOk, IfErr};
ghost use Rattle.host_embed.specs.Held.{Held};
ghost use Rattle.host_embed.specs.Loads.{Loads, LoadsInto};
ghost use Rattle.host_embed.specs.Slots.{slot_owns};

use super::held::Held;
use super::load_fault::LoadFault;
use host_handle::Loose;
use std::alloc::Global;
use std::marker::Model;

/// Where C has a handle put. It owns nothing before, and the machine that is loaded there behind;
/// from then on it is a [`Sulkhen`](super::Sulkhen). One that is loaded into again forgets what it
/// owned.
#[repr(C)]
#[derive(Drop)]
pub struct SulkhenSlot {
    at: *mut u8,
    alloc: Global,
    pub ghost value: { Option Held },
}

impl Model for SulkhenSlot {
    ghost use Rattle.host_embed.specs.Slots.{slot_owns};

    ghost also_owns = { λ slot. slot_owns slot.alloc slot.at slot.value };
}

impl SulkhenSlot {
    /// Puts the machine of the valid file that bytes are here, as [`Held::load`] gives it, or tells
    /// their first fault and leaves the slot as it was.
    pub fn load(&mut self, alloc: Global, bytes: &[u8]) -> Result<(), LoadFault>
        ensures { LoadsInto bytes.now self.old.value result self.new.value }
    {
        match boxed(alloc, bytes) {
            Ok(held) => {
                *self = SulkhenSlot::of(held);
                Ok(())
            }
            Err(fault) => Err(fault),
        }
    }

    /// A slot with a machine.
    fn of(held: Box<Held>) -> SulkhenSlot
        ensures { result.value ≡ Some held.value }
    {
        SulkhenSlot::of_parts(Loose::of(held))
    }

    /// A slot with what lies behind a pointer.
    fn of_parts(parts: Loose<Held, Global>) -> SulkhenSlot
        ensures { result.value ≡ Some parts.value }
    {
        let Loose { at, alloc } = parts;
        SulkhenSlot {
            at: at as *mut u8,
            alloc,
        }
    }
}

/// The machine of a file in a box.
fn boxed(alloc: Global, bytes: &[u8]) -> Result<Box<Held>, LoadFault>
    ensures ok { IfOk result (λ held. Loads bytes.now (Ok held.value)) }
    ensures err { IfErr result (λ fault. Loads bytes.now (Err fault)) }
{
    let held = Held::load(alloc, bytes)?;
    match Box::new(alloc, held) {
        Ok(boxed) => Ok(boxed),
        Err(_) => Err(LoadFault::Memory),
    }
}
