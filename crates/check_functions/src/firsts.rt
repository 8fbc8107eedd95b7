ghost use Rattle.std.specs.Prelude.{◌≡◌, [], ◌∷◌, ◌++◌, None, Some, map, length, option_map};
ghost use Rattle.std.specs.Prelude.{position, if◌then◌else◌, replicate, List as ListOf, IfOk};
ghost use Rattle.std.specs.Option.{option_or};
ghost use Rattle.types_rules.specs.Headings.{Heading as PlainHeading, belongs};
ghost use Rattle.check_source.specs.KeyView.{key_view};
ghost use Rattle.check_source.specs.GroupsView.{groups_view};
ghost use Rattle.check_source.specs.HeadingView.{heading_view};
ghost use Rattle.check_functions.specs.Own as spec;
ghost use Rattle.check_functions.specs.Own.{AreFirsts, HasNumber, number_in};
ghost use Rattle.check_functions.specs.Own.{noted, least, first_by};

use check_source::{Groups, Heading, Key, Role, Source, heading_key, is_entry};
use pawn_base::Memory;
use pawn_tags::TagTable;
use std::alloc::Global;

/// Whether a heading is a forward of `entry`, which is of every entry function.
pub fn enters_all(it: &Heading) -> bool
    ensures { result ≡ spec.enters_all (heading_view it.now) }
{
    match it.role {
        Role::Forward => is_entry(&it.head.name),
        Role::Native => false,
        Role::Body => false,
    }
}

/// The key of a heading, where it is of one function alone.
pub fn own_key<'a>(tags: &TagTable, fallback: &'a [u8], it: &Heading<'a>) -> Option<Key<'a>>
    ensures { option_map key_view result ≡
        spec.own_key tags.now fallback.now (heading_view it.now) }
{
    match it.role {
        Role::Native => None,
        Role::Forward => {
            if is_entry(&it.head.name) {
                None
            } else {
                Some(heading_key(tags, fallback, it))
            }
        }
        Role::Body => Some(heading_key(tags, fallback, it)),
    }
}

/// The number of a function with a key, where there is a key.
fn number_by(groups: &Groups, key: Option<Key>) -> Option<u32>
    ensures { result ≡ number_in (groups_view groups.now) (option_map key_view key.entry) }
{
    match key {
        None => None,
        Some(key) => groups.number_of(key),
    }
}

/// The number of the function that a heading is of, where it is of one alone.
pub fn own_number<'a>(
    tags: &TagTable,
    fallback: &'a [u8],
    groups: &Groups<'a>,
    it: &Heading<'a>,
) -> Option<u32>
    ensures { result ≡ number_in (groups_view groups.now)
        (spec.own_key tags.now fallback.now (heading_view it.now)) }
{
    number_by(groups, own_key(tags, fallback, it))
}

/// The place of the first own heading of each function, and of the first heading of all entry
/// functions.
#[derive(Drop)]
pub struct Firsts {
    pub own: Vec<Option<u32>>,
    pub entry: Option<u32>,
}

/// No places, for so many functions.
fn nothing(alloc: Global, count: usize) -> Result<Vec<Option<u32>>, Memory>
    ensures { IfOk result (λ own. own.items ≡ replicate count None) }
{
    let own = vec![in alloc; None; count]?;
    Ok(own)
}

/// A place, unless there is one.
fn first_of(first: Option<u32>, place: u32) -> Option<u32>
    ensures { result ≡ option_or first (Some place) }
{
    match first {
        None => Some(place),
        Some(_) => first,
    }
}

/// The place of a heading of this function.
fn note(own: &mut Vec<Option<u32>>, number: Option<u32>, place: u32)
    ensures { own.new.items ≡ noted number place own.old.items }
{
    if let Some(number) = number {
        note_at(own, number as usize, place);
    }
}

fn note_at(own: &mut Vec<Option<u32>>, number: usize, place: u32)
    ensures { own.new.items ≡ noted (Some number) place own.old.items }
{
    if number < own.len() {
        own[number] = first_of(own[number], place);
    }
}

/// The place of a heading, if it is of all entry functions.
fn note_entry(entry: Option<u32>, enters: bool, place: u32) -> Option<u32>
    ensures { result ≡ if enters then option_or entry (Some place) else entry }
{
    if enters {
        first_of(entry, place)
    } else {
        entry
    }
}

/// The lesser of two places.
fn least_of(x: Option<u32>, y: Option<u32>) -> Option<u32>
    ensures { result ≡ least x y }
{
    match x {
        None => y,
        Some(m) => match y {
            None => Some(m),
            Some(n) => Some(m.min(n)),
        },
    }
}

impl Firsts {
    /// With a heading more.
    fn add(&mut self, source: &Source, it: &Heading, place: u32)
        ensures { (before : ListOf PlainHeading) → place ≡ length before
            → AreFirsts source.now.tags source.now.fallback.now (groups_view source.now.groups)
            before self.old.own.items self.old.entry
            → AreFirsts source.now.tags source.now.fallback.now (groups_view source.now.groups)
            (before ++ heading_view it.now ∷ []) self.new.own.items self.new.entry }
    {
        let number = own_number(&source.tags, source.fallback, &source.groups, it);
        note(&mut self.own, number, place);
        self.entry = note_entry(self.entry, enters_all(it), place);
    }

    /// The place of the first own heading of the function with a number.
    fn own_first(&self, number: Option<u32>) -> Option<u32>
        ensures { result ≡ spec.own_at self.now.own.items number }
    {
        match number {
            None => None,
            Some(number) => match self.own.get(number as usize) {
                None => None,
                Some(first) => *first,
            },
        }
    }

    /// The place of the first heading of a function.
    pub fn first(&self, source: &Source, key: Key) -> Option<u32>
        requires { AreFirsts source.now.tags source.now.fallback.now
            (groups_view source.now.groups)
            (map heading_view source.now.headings) self.now.own.items self.now.entry }
        ensures { HasNumber (groups_view source.now.groups) (key_view key.entry) →
            result ≡ position
            (belongs source.now.tags source.now.fallback.now (key_view key.entry))
            (map heading_view source.now.headings) }
    {
        let own = self.own_first(source.groups.number_of(key));
        self.first_by(key, own)
    }

    /// By that of its own headings.
    fn first_by(&self, key: Key, own: Option<u32>) -> Option<u32>
        ensures { result ≡ first_by (key_view key.entry) own self.now.entry }
    {
        match key {
            Key::Enters(_) => least_of(own, self.entry),
            Key::Named(_) => own,
            Key::Operates(_) => own,
            Key::Misshapen => own,
        }
    }
}

/// The first heading of each function of a source, in one pass over its headings.
///
/// # Errors
///
/// `Memory` for want of memory, or where there are 2^32 headings.
pub fn find_firsts(alloc: Global, source: &Source) -> Result<Firsts, Memory>
    ensures { IfOk result (λ firsts. AreFirsts source.now.tags source.now.fallback.now
        (groups_view source.now.groups) (map heading_view source.now.headings)
        firsts.own.items firsts.entry) }
{
    let headings = source.headings.as_slice();
    let mut firsts = Firsts {
        own: nothing(alloc, source.groups.as_slice().len())?,
        entry: None,
    };
    for i in 0..headings.len() {
        let Ok(place) = u32::try_from(i) else {
            return Err(Memory);
        };
        firsts.add(source, &headings[i], place);
    }
    Ok(firsts)
}
