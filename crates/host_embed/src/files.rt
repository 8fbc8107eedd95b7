ghost use Rattle.std.specs.Prelude.{◌≡◌, ◌<◌, IfSome, length, option_map, slice_get};
ghost use Rattle.host_embed.specs.Names.{number_named};

use super::held::Held;
use amx_ops::Record;

// The file's entries and natives.
impl Held {
    /// The number of the first public with a name.
    pub fn public_number(&self, name: &[u8]) -> Option<usize>
        ensures { result ≡ number_named self.now.machine.amx.publics name.now }
    {
        number_of(self.machine.verified().amx().publics.as_slice(), name)
    }

    /// How many natives the file has.
    pub fn natives(&self) -> usize
        ensures { result ≡ length self.now.machine.amx.natives }
    {
        self.machine.verified().amx().natives.len()
    }

    /// The number of the first native with a name.
    pub fn native_number(&self, name: &[u8]) -> Option<usize>
        ensures { result ≡ number_named self.now.machine.amx.natives name.now }
    {
        number_of(self.machine.verified().amx().natives.as_slice(), name)
    }

    /// The name of a native by its number.
    pub fn native_name(&self, number: usize) -> Option<&[u8]>
        ensures { option_map (λ name. name.now) result
            ≡ option_map (λ it. it.name) (slice_get self.now.machine.amx.natives number) }
    {
        match record_at(self.machine.verified().amx().natives.as_slice(), number) {
            Some(record) => Some(record.name.as_slice()),
            None => None,
        }
    }
}

/// A record by its number.
fn record_at(records: &[Record], number: usize) -> Option<&Record>
    ensures { option_map (λ it. it.now) result ≡ slice_get records.now number }
{
    records.get(number)
}

/// The number of the first record with a name.
fn number_of(records: &[Record], name: &[u8]) -> Option<usize>
    ensures { result ≡ number_named records.now name.now }
{
    for (number, record) in records.iter().enumerate() {
        if record.name.is(name) {
            return Some(number);
        }
    }
    None
}
