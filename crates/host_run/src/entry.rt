ghost use Rattle.std.specs.Prelude.{◌≡◌, ◌<◌, ◌^◌, IfSome, None, Some, if◌then◌else◌};
ghost use Rattle.std.specs.Prelude.{length, negsuc, option_map, pos};
ghost use Rattle.std.specs.Str.{bytes_eq};
ghost use Rattle.pawn_cells.specs.Cells.{equal};
ghost use Rattle.host_run.specs.declared.entry.TheConstants.{MAIN};
ghost use Rattle.host_run.specs.Entry.{IsEntryOf, public_named};

use amx_ops::{Amx, Record};

/// The name of main as an entry.
pub const MAIN: [u8; 4] = *b"main";

/// The number of an entry by its name: -1 for main, else that of the first public with the name.
pub fn entry_of(amx: &Amx, name: &[u8]) -> Option<i32>
    requires { length amx.now.publics < 2 ^ 31 }
    ensures { IsEntryOf amx.now name.now result }
{
    let main = is_main(name);
    if main {
        main_at(amx.entry)
    } else {
        public_number(amx.publics.as_slice(), name)
    }
}

fn is_main(name: &[u8]) -> bool
    ensures { result ≡ bytes_eq name.now MAIN }
{
    name == MAIN.as_slice()
}

/// The number of main, where its address isn't -1.
fn main_at(address: i32) -> Option<i32>
    ensures { result ≡ (if equal address (negsuc 0) then None else Some (negsuc 0)) }
{
    if address == -1 { None } else { Some(-1) }
}

/// The number of the first public with a name.
fn public_number(publics: &[Record], name: &[u8]) -> Option<i32>
    requires { length publics.now < 2 ^ 31 }
    ensures number { result ≡ option_map pos (public_named publics.now name.now) }
    ensures within { IfSome (public_named publics.now name.now) (λ n. n < length publics.now) }
{
    match public_of(publics, name) {
        Some(number) => Some(number as i32),
        None => None,
    }
}

fn public_of(publics: &[Record], name: &[u8]) -> Option<usize>
    ensures first { result ≡ public_named publics.now name.now }
    ensures within { IfSome result (λ number. number < length publics.now) }
{
    for (number, public) in publics.iter().enumerate() {
        if public.name.is(name) {
            return Some(number);
        }
    }
    None
}
