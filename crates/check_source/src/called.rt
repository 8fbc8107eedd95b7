ghost use Rattle.std.specs.Prelude.{◌≡◌, [], map, IfOk};
ghost use Rattle.pawn_base.specs.Among.{is_among};
ghost use Rattle.check_source.specs.WrittenView.{written_view};
ghost use Rattle.check_source.specs.Adds.{bytes_of};
ghost use Rattle.check_source.specs.CalledView.{called_by, with_names};

use super::statement::add_called;
use super::written::Written;
use pawn_base::{List, Memory, Names};
use std::alloc::Global;
use std::marker::Model;

/// The names that are called in the bodies of a source, with a set of them. Contracts see the
/// names as they stand in the source.
#[derive(Drop)]
pub struct Called<'a> {
    list: List<&'a [u8]>,
    names: Names,
}

impl<'a> Model for Called<'a> {
    ghost use Rattle.std.specs.Prelude.{◌≡◌, [], List, ℕ};
    ghost use Rattle.std.specs.Coded.{coded_list, coded_ℕ};
    ghost use Rattle.check_source.specs.Adds.{bytes_of};
    ghost use Rattle.check_source.specs.CalledView.{with_names};

    ghost Value = { List (List ℕ) };

    ghost coded = { coded_list (coded_list coded_ℕ) };

    ghost view = { λ called. bytes_of called.list };

    ghost invariant = { λ called. called.names ≡ with_names [] (bytes_of called.list) };
}

impl<'a> Called<'a> {
    /// Whether a name is called.
    pub fn contains(&self, name: &[u8]) -> bool
        ensures { result ≡ is_among name.now self.now }
    {
        self.names.contains(name)
    }
}

/// The names that bodies call, in order.
fn all_called<'a>(alloc: Global, bodies: &[Written<'a>]) -> Result<List<&'a [u8]>, Memory>
    ensures { IfOk result (λ list. bytes_of list ≡ called_by (map written_view bodies.now)) }
{
    let mut list = List::new(alloc);
    for it in bodies {
        add_called(&it.function.body, &mut list)?;
    }
    Ok(list)
}

/// A set of names.
fn set_of(alloc: Global, list: &[&[u8]]) -> Result<Names, Memory>
    ensures { IfOk result (λ names. names ≡ with_names [] (bytes_of list.now)) }
{
    let mut names = Names::new(alloc);
    for name in list {
        let _is_new = names.add(alloc, *name)?;
    }
    Ok(names)
}

/// The names that are called in bodies.
///
/// # Errors
///
/// `Memory` for want of memory.
pub fn call_names<'a>(alloc: Global, bodies: &[Written<'a>]) -> Result<Called<'a>, Memory>
    ensures { IfOk result (λ called. called ≡ called_by (map written_view bodies.now)) }
{
    let list = all_called(alloc, bodies)?;
    let names = set_of(alloc, list.as_slice())?;
    Ok(Called { list, names })
}
