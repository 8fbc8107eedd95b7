ghost use Rattle.std.specs.Prelude.{◌≡◌, ◌||◌, ◌&&◌, [], ◌∷◌, ◌++◌, map, replicate, false};
ghost use Rattle.std.specs.Prelude.{List as ListOf, Some, IfOk};
ghost use Rattle.types_rules.specs.Headings.{Heading as PlainHeading, is_enters};
ghost use Rattle.check_source.specs.KeyView.{key_view};
ghost use Rattle.check_source.specs.GroupsView.{groups_view};
ghost use Rattle.check_source.specs.HeadingView.{heading_view};
ghost use Rattle.check_functions.specs.Own.{number_in};
ghost use Rattle.check_declarations.specs.Marked as spec;
ghost use Rattle.check_declarations.specs.Marked.{AreMarked};

use check_functions::{enters_all, own_number};
use check_source::{Heading, Key, Source};
use pawn_base::Memory;
use std::alloc::Global;

/// Which functions a heading says to be public: each by its number, and whether all entry functions
/// are.
#[derive(Drop)]
pub struct Marks {
    pub flags: Vec<bool>,
    pub entry: bool,
}

/// No marks, for so many functions.
fn nothing(alloc: Global, count: usize) -> Result<Vec<bool>, Memory>
    ensures { IfOk result (λ flags. flags.items ≡ replicate count false) }
{
    let mut flags = Vec::new(alloc);
    for _ in 0..count {
        flags.push(false)?;
    }
    Ok(flags)
}

/// The number of the function that a heading says to be public, where it is one alone.
fn public_number(source: &Source, it: &Heading) -> Option<u32>
    ensures { result ≡ number_in (groups_view source.now.groups)
        (spec.public_key source.now.tags source.now.fallback.now (heading_view it.now)) }
{
    if it.is_public {
        own_number(&source.tags, source.fallback, &source.groups, it)
    } else {
        None
    }
}

fn mark_at(flags: &mut Vec<bool>, number: usize)
    ensures { flags.new.items ≡ spec.marked (Some number) flags.old.items }
{
    if number < flags.len() {
        flags[number] = true;
    }
}

fn mark(flags: &mut Vec<bool>, number: Option<u32>)
    ensures { flags.new.items ≡ spec.marked number flags.old.items }
{
    if let Some(number) = number {
        mark_at(flags, number as usize);
    }
}

/// Whether a function with a number is marked.
fn flag_at(flags: &[bool], number: Option<u32>) -> bool
    ensures { result ≡ spec.flag_at flags.now number }
{
    match number {
        None => false,
        Some(number) => match flags.get(number as usize) {
            None => false,
            Some(flag) => *flag,
        },
    }
}

/// Whether a heading says that all entry functions are public.
fn says_all(it: &Heading) -> bool
    ensures { result ≡ spec.says_all (heading_view it.now) }
{
    if it.is_public { enters_all(it) } else { false }
}

fn either(x: bool, y: bool) -> bool
    ensures { result ≡ x || y }
{
    x || y
}

/// What is said of a function, by its own mark and by that of all entry functions.
#[tactic(auto, using(check_functions::proofs::OwnLaws::or_false))]
fn says_by(key: Key, own: bool, entry: bool) -> bool
    ensures { result ≡ own || (is_enters (key_view key.entry) && entry) }
{
    match key {
        Key::Enters(_) => either(own, entry),
        Key::Named(_) => own,
        Key::Operates(_) => own,
        Key::Misshapen => own,
    }
}

impl Marks {
    /// With a heading more.
    fn add(&mut self, source: &Source, it: &Heading)
        ensures { (before : ListOf PlainHeading)
            → AreMarked source.now.tags source.now.fallback.now (groups_view source.now.groups)
            before self.old.flags.items self.old.entry
            → AreMarked source.now.tags source.now.fallback.now (groups_view source.now.groups)
            (before ++ heading_view it.now ∷ []) self.new.flags.items self.new.entry }
    {
        let number = public_number(source, it);
        mark(&mut self.flags, number);
        self.entry = either(self.entry, says_all(it));
    }

    /// Whether a heading says that a function is public.
    pub fn says_public(&self, source: &Source, key: Key) -> bool
        ensures { result ≡ spec.flag_at self.now.flags.items
            (number_in (groups_view source.now.groups) (Some (key_view key.entry)))
            || (is_enters (key_view key.entry) && self.now.entry) }
    {
        let own = flag_at(self.flags.as_slice(), source.groups.number_of(key));
        says_by(key, own, self.entry)
    }
}

/// What the headings of a source say, in one pass over them.
///
/// # Errors
///
/// `Memory` for want of memory.
pub fn find_marks(alloc: Global, source: &Source) -> Result<Marks, Memory>
    ensures { IfOk result (λ marks. AreMarked source.now.tags source.now.fallback.now
        (groups_view source.now.groups) (map heading_view source.now.headings)
        marks.flags.items marks.entry) }
{
    let headings = source.headings.as_slice();
    let mut marks = Marks {
        flags: nothing(alloc, source.groups.as_slice().len())?,
        entry: false,
    };
    for i in 0..headings.len() {
        marks.add(source, &headings[i]);
    }
    Ok(marks)
}
