ghost use Rattle.std.specs.Prelude.{◌≡◌, ℕ, map, IfOk};
ghost use Rattle.gen_agrees.specs.Shape.{native_record};
ghost use Rattle.gen_module.specs.Starts.{Finds};
ghost use Rattle.gen_module.specs.Records.{public_record, tag_record};

use super::starts::start_at;
use amx_ops::{Name, Record};
use pawn_base::{Bytes, List, Memory};
use pawn_meaning::{Public, Tag};
use std::alloc::Global;

/// A record of a table, with a copy of a name.
fn named(alloc: Global, address: i32, name: &Bytes) -> Result<Record, Memory>
    ensures { IfOk result (λ it. it ≡ record { address = address; name = name.now }) }
{
    let bytes = Bytes::from_slice(alloc, name.as_slice())?;
    let name = Name::from_bytes(alloc, bytes)?;
    Ok(Record { address, name })
}

/// The natives, whose addresses a host puts.
pub(crate) fn natives(alloc: Global, names: &[Bytes]) -> Result<List<Record>, Memory>
    ensures { IfOk result (λ it. it ≡ map native_record names.now) }
{
    let mut records = List::new(alloc);
    for name in names {
        let native = named(alloc, 0, name)?;
        records.push(native)?;
    }
    Ok(records)
}

/// The tags, by their numbers.
pub(crate) fn tags(alloc: Global, tags: &[Tag]) -> Result<List<Record>, Memory>
    ensures { IfOk result (λ it. it ≡ map tag_record tags.now) }
{
    let mut records = List::new(alloc);
    for tag in tags {
        let named = named(alloc, tag.number.cast_signed(), &tag.name)?;
        records.push(named)?;
    }
    Ok(records)
}

/// The public functions, with their addresses.
pub(crate) fn publics(
    alloc: Global,
    publics: &[Public],
    entries: &[i32],
) -> Result<List<Record>, Memory>
    ensures { (entry : ℕ → ℕ) → Finds entry entries.now →
        IfOk result (λ it. it ≡ map (public_record entry) publics.now) }
{
    let mut records = List::new(alloc);
    for public in publics {
        let address = start_at(public.function, entries)?;
        let named = named(alloc, address, &public.name)?;
        records.push(named)?;
    }
    Ok(records)
}
