ghost use Rattle.std.specs.Prelude.{◌≡◌, map, IfOk};
ghost use Rattle.pawn_pre.specs.Outcome.{name_of};
ghost use Rattle.pawn_front.specs.Places.{warning_at};

use super::compiled::Warning;
use pawn_base::{Bytes, List, Memory};
use pawn_cells::Place;
use std::alloc::Global;

/// The name of a file by its number.
pub fn file_name(files: &[Bytes], file: u64) -> &[u8]
    ensures { result.now ≡ name_of files.now file }
{
    match files.get(file as usize) {
        Some(name) => name.as_slice(),
        None => &[],
    }
}

/// The warnings at places of some files.
pub fn warnings(alloc: Global, files: &[Bytes], places: &[Place]) -> Result<List<Warning>, Memory>
    ensures { IfOk result (λ list. list ≡ map (warning_at files.now) places.now) }
{
    let mut list = List::new(alloc);
    for place in places {
        let warning = warning(alloc, files, *place)?;
        list.push(warning)?;
    }
    Ok(list)
}

/// The warning at a place.
fn warning(alloc: Global, files: &[Bytes], place: Place) -> Result<Warning, Memory>
    ensures { IfOk result (λ it. it ≡ warning_at files.now place) }
{
    let file = Bytes::from_slice(alloc, file_name(files, place.file))?;
    Ok(Warning {
        file,
        line: place.line,
    })
}
