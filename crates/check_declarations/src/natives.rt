ghost use Rattle.std.specs.Prelude.{◌≡◌, [], ◌++◌, ◌&&◌, map, IfOk, OnOk};
ghost use Rattle.types_rules.specs.Programs as spec;
ghost use Rattle.types_rules.specs.Sources.{stated};
ghost use Rattle.types_rules.specs.Sources as sources;
ghost use Rattle.check_source.specs.HeadingView.{heading_view, role_view};
ghost use Rattle.check_source.specs.SourceView.{source_view};
ghost use Rattle.check_declarations.specs.Listed.{listed_by};

use check_functions::{heading_name, is_called, is_native};
use check_source::{Heading, Source};
use pawn_base::{Bytes, List, Memory};
use std::alloc::Global;

/// Whether a heading is that of a native that is called.
fn is_listed(source: &Source, it: &Heading) -> bool
    ensures { result ≡ (sources.is_native (role_view it.now.role)
        && sources.is_called (source_view source.now) (heading_view it.now)) }
{
    is_native(it.role) && is_called(source, it)
}

/// With a name, where it is to be listed.
fn add_name(
    alloc: Global,
    list: &mut List<Bytes>,
    is_listed: bool,
    name: &[u8],
) -> Result<(), Memory>
    ensures { OnOk result (list.new ≡ list.old ++ listed_by is_listed name.now) }
{
    match is_listed {
        true => {
            list.push(Bytes::from_slice(alloc, name)?)?;
            Ok(())
        }
        false => Ok(()),
    }
}

/// The names of the natives that are called, in the order of their declarations (Language Guide,
/// "Native functions").
pub fn natives_of(alloc: Global, source: &Source) -> Result<List<Bytes>, Memory>
    ensures { IfOk result (λ list. list ≡ spec.natives (source_view source.now)
        (stated (source_view source.now) (map heading_view source.now.headings) [])) }
{
    let headings = source.headings.as_slice();
    let mut list = List::new(alloc);
    for i in 0..headings.len() {
        let it = &headings[i];
        add_name(
            alloc,
            &mut list,
            is_listed(source, it),
            heading_name(&it.head.name),
        )?;
    }
    Ok(list)
}
