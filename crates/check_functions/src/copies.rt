ghost use Rattle.std.specs.Prelude.{◌≡◌, IfOk};

use check_nodes::{Head, Param};
use pawn_base::{Bytes, List, Memory};
use std::alloc::Global;

fn copy_tags(alloc: Global, tags: &[u32]) -> Result<List<u32>, Memory>
    ensures { IfOk result (λ copy. copy ≡ tags.now) }
{
    let items = Vec::from_slice(alloc, tags)?;
    Ok(List::from_vec(items))
}

fn copy_rest(alloc: Global, rest: &Option<List<u32>>) -> Result<Option<List<u32>>, Memory>
    ensures { IfOk result (λ copy. copy ≡ rest.now) }
{
    match rest {
        None => Ok(None),
        Some(tags) => Ok(Some(copy_tags(alloc, tags.as_slice())?)),
    }
}

fn copy_param(alloc: Global, it: &Param) -> Result<Param, Memory>
    ensures { IfOk result (λ copy. copy ≡ it.now) }
{
    Ok(Param {
        name: Bytes::from_slice(alloc, it.name.as_slice())?,
        constant: it.constant,
        reference: it.reference,
        tags: copy_tags(alloc, it.tags.as_slice())?,
        extent: it.extent,
        default: it.default,
    })
}

fn copy_params(alloc: Global, params: &[Param]) -> Result<List<Param>, Memory>
    ensures { IfOk result (λ copy. copy ≡ params.now) }
{
    let mut copy = List::new(alloc);
    for it in params {
        copy.push(copy_param(alloc, it)?)?;
    }
    Ok(copy)
}

fn copy_head(alloc: Global, head: &Head) -> Result<Head, Memory>
    ensures { IfOk result (λ copy. copy ≡ head.now) }
{
    Ok(Head {
        params: copy_params(alloc, head.params.as_slice())?,
        rest: copy_rest(alloc, &head.rest)?,
    })
}

/// A copy of a head, where there is one.
pub fn copied(alloc: Global, head: &Option<Head>) -> Result<Option<Head>, Memory>
    ensures { IfOk result (λ copy. copy ≡ head.now) }
{
    match head {
        None => Ok(None),
        Some(head) => Ok(Some(copy_head(alloc, head)?)),
    }
}
