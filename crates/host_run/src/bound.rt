ghost use Rattle.std.specs.Prelude.{◌≡◌, ◌<◌, ◌≤◌, ◌^◌, if◌then◌else◌};
ghost use Rattle.std.specs.Prelude.{All, IfOk, IfSome, is_none, length, position};
ghost use Rattle.std.specs.List.{IsDistinct, position_from};
ghost use Rattle.std.specs.Str.{bytes_eq};
ghost use Rattle.host_script.specs.Ranges.{IsScript};
ghost use Rattle.host_run.specs.Bound.{Binds, natives_of, names_of};
ghost use Rattle.host_run.specs.Bound as spec;

use super::writes::write_all;
use amx_machine::Machine;
use amx_ops::{Name, Record};
use amx_verify::Verified;
use host_script::{Answer, Native, Script, Write};
use pawn_base::{List, Memory, Names};
use std::alloc::Global;
use std::marker::Model;
use thiserror::Error;

/// A native of a file.
#[derive(Debug, Drop)]
pub struct BoundNative {
    pub name: Name,
    /// The number of its entry among the script's natives, if it is listed.
    pub entry: Option<usize>,
}

/// The natives of a file with their entries in a script. Contracts see a list that has each of them
/// in the file's order, and for how many addresses there is room: as many as the script's longest
/// list of writes has.
#[derive(Debug, Drop)]
pub struct Bound {
    natives: List<BoundNative>,
    /// Where the addresses of an answer's writes are kept before the first of them is done.
    reserved: Vec<i32>,
}

impl Model for Bound {
    ghost use Rattle.std.specs.Prelude.{length};
    ghost use Rattle.host_run.specs.Bound.{Bound};

    ghost Value = { Bound };

    ghost view = { λ bound. record {
      natives = bound.natives;
      room = length bound.reserved.items;
    } };
}

impl Bound {
    ghost use Rattle.std.specs.Prelude.{◌≡◌, ◌≤◌, ◌<◌, List as ListOf, All};
    ghost use Rattle.std.specs.Prelude.{length, option_map, slice_get, unwrap_or};
    ghost use Rattle.host_script.specs.Ranges.{IsScript};
    ghost use Rattle.host_script.specs.declared.script.Script.{Script as ScriptOf};
    ghost use Rattle.amx_ops.specs.declared.amx.Record.{Record as RecordOf};
    ghost use Rattle.amx_ops.specs.Moves.{arguments, name_of};
    ghost use Rattle.host_run.specs.Bound.{bound_of, entry_of};
    ghost use Rattle.host_run.specs.Sights.{arguments_of, IsRoomFor};
    ghost use Rattle.host_run.specs.Writes.{written};

    /// A native by its number.
    fn get(&self, number: usize) -> Option<&BoundNative>
        ensures { option_map (λ native. native.now) result ≡ slice_get self.now.natives number }
    {
        self.natives.as_slice().get(number)
    }

    /// The name of a native by its number.
    pub(crate) fn name(&self, number: u32) -> &[u8]
        ensures { (script : ScriptOf) → (natives : ListOf RecordOf) →
            self.now ≡ bound_of script natives → result.now ≡ name_of natives number }
    {
        match self.get(number as usize) {
            None => b"",
            Some(native) => native.name.as_slice(),
        }
    }

    /// The number of its entry among the script's natives, if it is listed.
    pub(crate) fn entry(&self, number: u32) -> Option<usize>
        ensures { (script : ScriptOf) → (natives : ListOf RecordOf) → IsScript script →
            self.now ≡ bound_of script natives →
            result ≡ entry_of script (name_of natives number) }
    {
        match self.get(number as usize) {
            None => None,
            Some(native) => native.entry,
        }
    }

    /// Does the writes of an answer, the first of them first, to the addresses that the arguments
    /// had before.
    pub(crate) fn write_all(&mut self, machine: &mut Machine, writes: &[Write])
        requires there { let count = unwrap_or (option_map length (arguments machine.old.state)) 0 in
            All (λ write. write.arg < count) writes.now }
        requires room { All (IsRoomFor machine.old.state (arguments_of machine.old.state))
            writes.now }
        requires reserved { length writes.now ≤ self.old.room }
        ensures written { machine.new ≡ written writes.now machine.old }
        ensures same { self.new ≡ self.old }
    {
        write_all(machine, writes, self.reserved.as_mut_slice());
    }
}

/// Why natives aren't bound.
#[derive(Clone, Copy, Debug, PartialEq, Eq, Error)]
pub enum BindFault {
    /// The native with this number isn't listed, and the script serves no others.
    #[error("native {0} isn't listed")]
    Unregistered(u32),
    #[error("no memory")]
    Memory,
}

impl From<Memory> for BindFault {
    ghost use Rattle.std.specs.Prelude.{◌≡◌};
    ghost use Rattle.host_run.specs.declared.bound.BindFault.TheVariants as variants;

    ghost from_gives = { λ _ fault. fault ≡ variants.Memory };

    fn from(_: Memory) -> BindFault {
        BindFault::Memory
    }
}

/// Finds the entry of each native of a file in a script, or tells the first native that the script
/// doesn't serve. It takes linear time.
#[tactic(auto, using(crate::proofs::NameLaws::unserved_is))]
pub fn bind(alloc: Global, verified: &Verified, script: &Script) -> Result<Bound, BindFault>
    requires script { IsScript script.now }

    // As the verifier asks of a file.
    requires small { length verified.now.natives < 2 ^ 31 }
    ensures { Binds script.now verified.now.natives result }
{
    let natives = bound_natives(alloc, verified.amx().natives.as_slice(), script)?;
    match first_unserved(script, natives.as_slice()) {
        Some(number) => Err(BindFault::Unregistered(number as u32)),
        None => Ok(with_room(alloc, natives, most_writes(script.answers.as_slice()))?),
    }
}

/// Bound natives with room for so many addresses.
fn with_room(alloc: Global, natives: List<BoundNative>, room: usize) -> Result<Bound, Memory>
    ensures { IfOk result (λ bound. bound ≡ record { natives = natives; room = room }) }
{
    let reserved = Vec::from_elem(alloc, 0, room)?;
    Ok(Bound { natives, reserved })
}

/// The most writes that an answer has.
fn most_writes(answers: &[Answer]) -> usize
    ensures { result ≡ spec.most_writes answers.now }
{
    let mut most = 0;
    for answer in answers {
        let count = count_writes(answer);
        if count > most {
            most = count;
        }
    }
    most
}

fn count_writes(answer: &Answer) -> usize
    ensures { result ≡ spec.count_writes answer.now }
{
    match answer {
        Answer::Given { writes, .. } => writes.len(),
        Answer::Error(_) => 0,
    }
}

/// Natives with their entries.
fn bound_natives(
    alloc: Global,
    natives: &[Record],
    script: &Script,
) -> Result<List<BoundNative>, Memory>
    requires { IsScript script.now }
    ensures { IfOk result (λ bound. bound ≡ natives_of script.now natives.now) }
{
    let names = names_of(alloc, script.natives.as_slice())?;
    let most = longest(script.natives.as_slice());
    let mut bound = List::new(alloc);
    for native in natives {
        bound.push(bound_native(&native.name, &names, most)?)?;
    }
    Ok(bound)
}

/// A native with its entry, by its name and those of a script's natives, which have so many bytes
/// at most.
fn bound_native(name: &Name, names: &Names, most: usize) -> Result<BoundNative, Memory>
    requires { All (λ it. length it ≤ most) names.now }
    ensures { IfOk result (λ native. native ≡ record {
      name = name.now;
      entry = position (bytes_eq name.now) names.now;
    }) }
{
    let entry = entry_among(name, names, most);
    Ok(BoundNative {
        name: name.share()?,
        entry,
    })
}

/// The place of a name among names that have so many bytes at most. A name that is longer isn't
/// read whole, since those of a file may share its bytes.
fn entry_among(name: &Name, names: &Names, most: usize) -> Option<usize>
    requires { All (λ it. length it ≤ most) names.now }
    ensures { result ≡ position (bytes_eq name.now) names.now }
{
    match name.within(most) {
        None => None,
        Some(bytes) => names.place(bytes),
    }
}

/// The most bytes that a name of a script's natives has.
fn longest(natives: &[Native]) -> usize
    ensures { All (λ it. length it ≤ result) (names_of natives.now) }
{
    let mut most = 0;
    for native in natives {
        most = most.max(native.name.len());
    }
    most
}

/// A table of the names of a script's natives.
#[tactic(auto, using(crate::proofs::NameLaws::is_new))]
fn names_of(alloc: Global, natives: &[Native]) -> Result<Names, Memory>
    requires { IsDistinct bytes_eq (names_of natives.now) }
    ensures { IfOk result (λ names. names ≡ names_of natives.now) }
{
    let mut names = Names::new(alloc);
    for native in natives {
        names.push(alloc, native.name.as_slice())?;
    }
    Ok(names)
}

/// The number of the first native that isn't listed, where the script serves no others.
fn first_unserved(script: &Script, natives: &[BoundNative]) -> Option<usize>
    ensures first { result ≡ (if script.now.others then None
        else position_from (λ it. is_none it.entry) 0 natives.now) }
    ensures within { IfSome result (λ number. number < length natives.now) }
{
    if script.others {
        return None;
    }
    first_unlisted(natives)
}

fn first_unlisted(natives: &[BoundNative]) -> Option<usize>
    ensures first { result ≡ position_from (λ it. is_none it.entry) 0 natives.now }
    ensures within { IfSome result (λ number. number < length natives.now) }
{
    for (number, native) in natives.iter().enumerate() {
        if native.entry.is_none() {
            return Some(number);
        }
    }
    None
}
