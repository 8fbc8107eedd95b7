ghost use Rattle.std.specs.Prelude.{◌≡◌, ◌+◌, [], ◌∷◌, map, IfOk};
ghost use Rattle.pawn_tree.specs.View.{param_view};
ghost use Rattle.pawn_meaning.specs.View.{slot_view};
ghost use Rattle.types_rules.specs.Declarations as spec;

use pawn_base::{List, Memory};
use pawn_meaning::Slot;
use pawn_tree::Param;
use std::alloc::Global;

/// Sizes once more.
fn sizes_again(alloc: Global, sizes: &[u32]) -> Result<List<u32>, Memory>
    ensures { IfOk result (λ all. all ≡ sizes.now) }
{
    let mut all = List::new(alloc);
    for size in sizes {
        all.push(*size)?;
    }
    Ok(all)
}

/// A slot once more.
fn slot_again(alloc: Global, slot: &Slot) -> Result<Slot, Memory>
    ensures { IfOk result (λ it. slot_view it ≡ slot_view slot.now) }
{
    match slot {
        Slot::Scalar => Ok(Slot::Scalar),
        Slot::Reference => Ok(Slot::Reference),
        Slot::Array(shape) => Ok(Slot::Array(*shape)),
        Slot::Open(sizes) => Ok(Slot::Open(sizes_again(alloc, sizes.as_slice())?)),
    }
}

/// Slots once more: a function has those of its parameters beside its body, which has them too.
pub fn slots_again(alloc: Global, slots: &[Slot]) -> Result<List<Slot>, Memory>
    ensures { IfOk result (λ all. map slot_view all ≡ map slot_view slots.now) }
{
    let mut all = List::new(alloc);
    for i in 0..slots.len() {
        let slot = slot_again(alloc, &slots[i])?;
        all.push(slot)?;
    }
    Ok(all)
}

/// One parameter more, unless it is `...`.
fn with_param(count: u32, param: &Param) -> Result<u32, Memory>
    ensures { IfOk result (λ more. more ≡ count + spec.param_count (param_view param.now ∷ [])) }
{
    match param {
        Param::Rest(_, _) => Ok(count),
        Param::Plain { .. } => match count.checked_add(1) {
            None => Err(Memory),
            Some(more) => Ok(more),
        },
    }
}

/// How many slots parameters take.
///
/// # Errors
///
/// `Memory` for more than a u32 counts.
pub fn param_count(params: &[Param]) -> Result<u32, Memory>
    ensures { IfOk result (λ count. count ≡ spec.param_count (map param_view params.now)) }
{
    let mut count = 0;
    for i in 0..params.len() {
        count = with_param(count, &params[i])?;
    }
    Ok(count)
}
