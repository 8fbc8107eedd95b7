ghost use Rattle.std.specs.Prelude.{◌≡◌, Some, if◌then◌else◌, List as ListOf, ℕ, IfOk, OnOk};
ghost use Rattle.std.specs.Str.{bytes_eq};
ghost use Rattle.check_calls.specs.Numbers.{AreNumbers, number_in};

use check_nodes::Param;
use indexmap::IndexMap;
use pawn_base::Memory;
use std::alloc::Global;

/// The numbers of a head's parameters by their names.
#[derive(Drop)]
pub struct Numbers<'a> {
    pub table: IndexMap<&'a [u8], usize>,
}

/// A name gets a number, in place of one that it had.
fn put<'a>(
    table: &mut IndexMap<&'a [u8], usize>,
    name: &'a [u8],
    number: usize,
) -> Result<(), Memory>
    ensures { OnOk result ((other : ListOf ℕ) → number_in other table.new.entries ≡
        if bytes_eq name.now other then Some number else number_in other table.old.entries) }
{
    let Ok(_before) = table.insert(name, number) else {
        return Err(Memory);
    };
    Ok(())
}

/// The numbers of these parameters. They are put from the last one to the first, so that a name
/// keeps the first one.
///
/// # Errors
///
/// `Memory` for want of memory.
pub fn numbers_of<'a>(alloc: Global, params: &'a [Param]) -> Result<Numbers<'a>, Memory>
    ensures { IfOk result (λ numbers. AreNumbers params.now numbers.table.entries) }
{
    let mut table = IndexMap::new(alloc);
    for done in 0..params.len() {
        let i = params.len() - 1 - done;
        put(&mut table, params[i].name.as_slice(), i)?;
    }
    Ok(Numbers { table })
}

impl<'a> Numbers<'a> {
    /// The number of the first parameter with a name.
    pub fn find(&self, name: &[u8]) -> Option<usize>
        ensures { result ≡ number_in name.now self.now.table.entries }
    {
        self.table.get(name).copied()
    }
}
