ghost use Rattle.std.specs.Prelude.{◌≡◌, ◌+◌, ◌*◌, ◌++◌, [], ◌∷◌, pos, IfOk, map, slice_get};
ghost use Rattle.pawn_meaning.specs.Scope.{object_extent, slot_extent, param_extent};
ghost use Rattle.gen_sim.specs.PlaceItems.{object_address, slot_offset};
ghost use Rattle.gen_sim.specs.PlaceItems.{object_code, slot_code, through_code};
ghost use Rattle.gen_expr.specs.Built.{with_items};
ghost use Rattle.gen_expr.specs.Standing.{scope_of, Serves, extent_of};

use super::builder::Builder;
use super::put::cell_of;
use super::reach::{Reach, open};
use amx_ops::Op;
use pawn_base::Memory;
use pawn_meaning::{Program, Slot};
use std::alloc::Global;

/// Where an expression stands: its program, the slots of its body, of which so many are parameters,
/// and those that were made before. Beside them stand the addresses of the program's objects, the
/// offsets from FRM of the slots in force, and where memory comes from.
#[derive(Clone, Copy)]
pub struct Frame<'a> {
    pub alloc: Global,
    pub program: &'a Program,
    pub slots: &'a [Slot],
    pub params: u32,
    pub made: &'a [u32],
    pub objects: &'a [i32],
    pub offsets: &'a [Option<i32>],
}

/// The address of an object. A program has no such object where the table has none.
pub(crate) fn object_at(o: u32, frame: &Frame<'_>) -> Result<i32, Memory>
    requires { Serves frame.now }
    ensures { IfOk result (λ x. x ≡ object_address (scope_of frame.now).program o) }
{
    match frame.objects.get(o as usize) {
        Some(address) => Ok(*address),
        None => Err(Memory),
    }
}

/// The offset of a slot. One that isn't in force has none.
pub(crate) fn slot_at(s: u32, frame: &Frame<'_>) -> Result<i32, Memory>
    requires { Serves frame.now }
    ensures { IfOk result (λ x. x ≡ slot_offset (scope_of frame.now) s) }
{
    match frame.offsets.get(s as usize) {
        Some(Some(offset)) => Ok(*offset),
        Some(None) | None => Err(Memory),
    }
}

/// The offset of a parameter.
pub(crate) fn through_at(s: u32) -> Result<i32, Memory>
    ensures { IfOk result (λ x. x ≡ pos (12 + 4 * s)) }
{
    cell_of(12 + 4 * u64::from(s))
}

/// The address of an object, to PRI.
pub fn object(o: u32, frame: &Frame<'_>, b: Builder) -> Result<Builder, Memory>
    requires { Serves frame.now }
    ensures { IfOk result (λ r. r ≡ with_items (object_code (scope_of frame.now).program o) b) }
{
    let address = object_at(o, frame)?;
    let b = b.put(Op::ConstPri, address)?;
    Ok(b)
}

/// The address of a slot's own cells, to PRI.
pub fn slot(s: u32, frame: &Frame<'_>, b: Builder) -> Result<Builder, Memory>
    requires { Serves frame.now }
    ensures { IfOk result (λ r. r ≡ with_items (slot_code (scope_of frame.now) s) b) }
{
    let offset = slot_at(s, frame)?;
    let b = b.put(Op::AddrPri, offset)?;
    Ok(b)
}

/// The address that a parameter holds, to PRI.
pub fn through(s: u32, b: Builder) -> Result<Builder, Memory>
    ensures { IfOk result (λ r. r ≡ with_items (through_code s) b) }
{
    let offset = through_at(s)?;
    let b = b.put(Op::LoadSPri, offset)?;
    Ok(b)
}

/// How far an object reaches.
#[tactic(auto, using(crate::proofs::ViewedLaws::objects_seen))]
pub fn object_reach(o: u32, frame: &Frame<'_>) -> Reach
    ensures { extent_of result ≡
        object_extent (slice_get (scope_of frame.now).program.objects o) }
{
    match frame.program.objects.as_slice().get(o as usize) {
        Some(object) => Reach::Known(object.shape),
        None => Reach::Nothing,
    }
}

/// How far the array reaches that a slot made.
#[tactic(auto, using(crate::proofs::ViewedLaws::slots_seen))]
pub fn slot_reach(s: u32, frame: &Frame<'_>) -> Reach
    ensures { extent_of result ≡ slot_extent (slice_get (scope_of frame.now).slots s) }
{
    match frame.slots.get(s as usize) {
        Some(Slot::Array(shape)) => Reach::Known(*shape),
        Some(Slot::Scalar | Slot::Reference | Slot::Open(_)) => Reach::Nothing,
        None => Reach::Nothing,
    }
}

/// How far the array reaches that a parameter refers to.
#[tactic(auto, using(crate::proofs::ViewedLaws::slots_seen))]
pub fn param_reach(s: u32, known: bool, frame: &Frame<'_>) -> Result<Reach, Memory>
    ensures { IfOk result (λ reach. extent_of reach ≡
        param_extent (slice_get (scope_of frame.now).slots s) known) }
{
    match frame.slots.get(s as usize) {
        Some(Slot::Array(shape)) => {
            if known {
                Ok(Reach::Known(*shape))
            } else {
                Ok(Reach::Nothing)
            }
        }
        Some(Slot::Open(inner)) => {
            if known {
                Ok(Reach::Nothing)
            } else {
                open(inner.as_slice())
            }
        }
        Some(Slot::Scalar | Slot::Reference) => Ok(Reach::Nothing),
        None => Ok(Reach::Nothing),
    }
}
