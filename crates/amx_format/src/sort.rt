ghost use Rattle.std.specs.Prelude.{IfOk};
ghost use Rattle.amx_format.specs.Sorts.{Sorts};

use amx_ops::Record;
use pawn_base::{List, Memory};
use std::alloc::Global;

/// A copy of records, sorted by the bytes of their names. Those of one name stay in their order.
pub fn sorted(alloc: Global, records: &[Record]) -> Result<List<Record>, Memory>
    ensures { IfOk result (λ copy. Sorts records.now copy) }
{
    let mut copy = Vec::new(alloc);
    for record in records {
        copy.push(Record {
            address: record.address,
            name: record.name.share()?,
        })?;
    }
    copy.sort_by(|a, b| a.name.as_slice().cmp(b.name.as_slice()))?;
    Ok(List::from_vec(copy))
}
