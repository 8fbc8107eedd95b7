ghost use Rattle.std.specs.Prelude.{◌≡◌, ◌≢◌, ◌≤◌, ◌<◌, ◌+◌, length, false, Some};
ghost use Rattle.std.specs.Prelude.{OnOk, IfOk, IsTrue};
ghost use Rattle.std.specs.Str.{IsAscii};
ghost use Rattle.pawn_outside.specs.Held.{Held};
ghost use Rattle.pawn_outside.specs.OnlyRead.{OnlyRead};
ghost use Rattle.pawn_outside.specs.Answers.{IsRead};
ghost use Rattle.pawn_pre.specs.declared.file.TheConstants.{FILE_LIMIT};
ghost use Rattle.pawn_pre.specs.Walk as walks;
ghost use Rattle.pawn_pre.specs.Outcome.{Fault, name_of};
ghost use Rattle.pawn_pre.specs.Sound.{IsSoundStack, Leaves};
ghost use Rattle.pawn_pre.specs.Remaining.{remaining, FallsBelow};
ghost use Rattle.pawn_pre.specs.WalkAnswers.{Says, IsFault, IsMissing, IsTold};
ghost use Rattle.pawn_pre.specs.ConditionMachine.{value_of};

use super::directive::{Word, directive};
use super::fault::PreFault;
use super::file::{FILE_LIMIT, read_rows};
use super::include::{Named, include_name};
use super::level::Level;
use super::line::Lines;
use super::refusal::{
    INCLUDE_TOO_DEEP, MISSING_INCLUDE, OPEN_COMMENT, Refusal, UNBALANCED_CONDITIONAL,
};
use super::work::Work;
use pawn_base::{Bytes, Memory, Names};
use pawn_cells::Place;
use pawn_outside::{Files, ReadAnswer};
use std::alloc::Global;
use std::collections::VecDeque;
use std::marker::Model;
use std::{mem, str};

/// The files that are open, and what is settled.
#[derive(Drop)]
pub struct Walk {
    names: Names,
    below: VecDeque<Level>,
    work: Work,
}

impl Model for Walk {
    ghost use Rattle.std.specs.Coded.{codes};
    ghost use Rattle.pawn_pre.specs.contracts.work.Work as settled;
    ghost use Rattle.pawn_pre.specs.Walk.{Stack};

    ghost Value = { Stack };

    ghost coded = { Prim.hlevel (codes, settled.the_row.coded) };

    ghost view = { λ walk. record {
      names = walk.names;
      below = walk.below.items;
      work = walk.work;
    } };
}

impl Walk {
    /// The source, before its first line.
    pub fn begin(alloc: Global, name: &str, bytes: &[u8]) -> Result<Walk, Memory>
        requires { length bytes.now ≤ FILE_LIMIT }
        ensures { IfOk result (λ walk. walk ≡ walks.first_stack name.now bytes.now) }
    {
        let mut names = Names::new(alloc);
        names.push(alloc, name.as_bytes())?;
        let top = Level::new(alloc, 0, read_rows(alloc, bytes)?);
        Ok(Walk {
            names,
            below: VecDeque::new(alloc),
            work: Work::new(alloc, top),
        })
    }

    /// What is kept.
    pub fn finish(self, alloc: Global) -> Result<Lines, Memory>
        ensures { IfOk result (λ lines. lines ≡ walks.stack_lines self) }
    {
        let Walk {
            names,
            below: _below,
            work,
        } = self;
        let Work {
            lines,
            size: _size,
            rules: _rules,
            settings,
            top: _top,
        } = work;
        Ok(Lines {
            lines,
            files: names.into_list(alloc)?,
            dynamic: settings.dynamic,
        })
    }

    /// Settles the next line, or the end of a file: false where no file is open any more.
    #[tactic(auto, unfolding(crate::specs::Walk::step))]
    pub fn turn<F: Files>(&mut self, alloc: Global, files: &mut F) -> Result<bool, PreFault>
        ensures says { (map : Held) → F.held files.old ≡ Some map →
            Says (walks.step value_of map self.old) result self.new }
        ensures falls { FallsBelow (remaining self.old) result self.new }
        ensures bounds { IsSoundStack self.old → Leaves result self.new }
        ensures files { OnlyRead F.held F.faults F.never_fails files.old files.new
            (result ≡ Err PreFault.Files) }
    {
        let Some(row) = self.work.top.take_row() else {
            return self.end_file(alloc);
        };
        let place = Place {
            file: self.work.top.file(),
            line: row.number,
        };
        match directive(row.bytes.as_slice()) {
            None => {
                let done = self.work.keep(alloc, row.number, row.bytes.as_slice());
                self.line_answer(alloc, place, done)
            }
            Some(parts) => match parts.word {
                Word::Include => self.include(alloc, files, row.number, false, parts.rest),
                Word::TryInclude => self.include(alloc, files, row.number, true, parts.rest),
                Word::Define
                | Word::Undef
                | Word::If
                | Word::ElseIf
                | Word::Else
                | Word::Endif
                | Word::Error
                | Word::Assert
                | Word::Endinput
                | Word::Pragma
                | Word::Unknown => {
                    let done = self.work.act(alloc, parts.word, parts.rest);
                    self.line_answer(alloc, place, done)
                }
            },
        }
    }

    /// A fault at a place, with the name of its file.
    fn fault(&self, alloc: Global, kind: u8, place: Place) -> PreFault
        ensures { IsFault
            (Fault kind place (name_of self.now.names place.file)) result }
    {
        match Bytes::from_slice(alloc, file_name(&self.names, place.file)) {
            Ok(name) => PreFault::Source { kind, place, name },
            Err(Memory) => PreFault::Memory,
        }
    }

    /// Closes a file of which no line is left.
    #[tactic(auto, unfolding(crate::specs::Walk::at_end))]
    fn end_file(&mut self, alloc: Global) -> Result<bool, PreFault>
        ensures says { Says (walks.at_end self.old) result self.new }
        ensures falls { FallsBelow (remaining self.old) result self.new }
        ensures bounds { IsSoundStack self.old → Leaves result self.new }
        ensures cause { result ≢ Err PreFault.Files }
    {
        let place = Place {
            file: self.work.top.file(),
            line: self.work.top.last(),
        };
        if self.work.top.is_unclosed() {
            return Err(self.fault(alloc, OPEN_COMMENT, place));
        }
        if self.work.top.innermost().is_some() {
            return Err(self.fault(alloc, UNBALANCED_CONDITIONAL, place));
        }
        match self.below.pop_front() {
            Some(level) => {
                self.work.top = level;
                Ok(true)
            }
            None => Ok(false),
        }
    }

    fn is_begun(&self, name: &[u8]) -> bool
        ensures { result ≡ walks.has_begun self.now name.now }
    {
        self.names.contains(name)
    }

    /// Opens a file that wasn't begun.
    fn enter(&mut self, alloc: Global, name: &[u8], bytes: &[u8]) -> Result<(), Memory>
        requires short { length bytes.now ≤ FILE_LIMIT }
        requires new { walks.has_begun self.old name.now ≡ false }
        ensures entered { OnOk result (self.new ≡ walks.entered self.old name.now bytes.now) }
        ensures falls { OnOk result (remaining self.new < remaining self.old + 1) }
    {
        let number = self.names.len() as u64;
        let level = Level::new(alloc, number, read_rows(alloc, bytes)?);
        let outer = mem::replace(&mut self.work.top, level);
        match self.below.push_front(outer) {
            Ok(()) => self.names.push(alloc, name),
            Err(_) => Err(Memory),
        }
    }

    /// A file that isn't there.
    fn missing(&self, alloc: Global, optional: bool, place: Place) -> Result<bool, PreFault>
        ensures { IsMissing optional self.now place result }
    {
        if optional {
            Ok(true)
        } else {
            Err(self.fault(alloc, MISSING_INCLUDE, place))
        }
    }

    /// Asks for a file that wasn't begun, and opens it.
    fn ask<F: Files>(
        &mut self,
        alloc: Global,
        files: &mut F,
        line: u32,
        optional: bool,
        named: Named,
    ) -> Result<bool, PreFault>
        requires ascii { IsTrue named.valid → IsAscii named.name }
        requires new { walks.has_begun self.old named.name ≡ false }
        ensures says { (map : Held) → F.held files.old ≡ Some map →
            Says (walks.walk_include_asked map self.old line optional named) result self.new }
        ensures falls { FallsBelow (remaining self.old + 1) result self.new }
        ensures bounds { IsSoundStack self.old → Leaves result self.new }
        ensures files { OnlyRead F.held F.faults F.never_fails files.old files.new
            (result ≡ Err PreFault.Files) }
    {
        let place = Place {
            file: self.work.top.file(),
            line,
        };
        if !named.valid {
            return self.missing(alloc, optional, place);
        }
        match read_named(alloc, files, named.name.as_slice()) {
            ReadAnswer::Got(bytes) => {
                self.enter(alloc, named.name.as_slice(), bytes.as_slice())?;
                Ok(true)
            }
            ReadAnswer::Missing => self.missing(alloc, optional, place),
            ReadAnswer::TooLarge => Err(PreFault::TooLarge(named.name)),
            ReadAnswer::Failed => Err(PreFault::Files),
            ReadAnswer::Memory => Err(PreFault::Memory),
        }
    }

    /// Includes a file.
    #[tactic(auto, unfolding(crate::specs::Walk::walk_include))]
    fn include<F: Files>(
        &mut self,
        alloc: Global,
        files: &mut F,
        line: u32,
        optional: bool,
        rest: &[u8],
    ) -> Result<bool, PreFault>
        ensures says { (map : Held) → F.held files.old ≡ Some map →
            Says (walks.walk_include map self.old line optional rest.now) result self.new }
        ensures falls { FallsBelow (remaining self.old + 1) result self.new }
        ensures bounds { IsSoundStack self.old → Leaves result self.new }
        ensures files { OnlyRead F.held F.faults F.never_fails files.old files.new
            (result ≡ Err PreFault.Files) }
    {
        if !self.work.is_in_chosen() {
            return Ok(true);
        }
        let named = include_name(alloc, rest)?;
        if self.is_begun(named.name.as_slice()) {
            return Ok(true);
        }
        if self.below.len() > 15 {
            let place = Place {
                file: self.work.top.file(),
                line,
            };
            return Err(self.fault(alloc, INCLUDE_TOO_DEEP, place));
        }
        self.ask(alloc, files, line, optional, named)
    }

    /// What became of the work of a line.
    fn line_answer(
        &self,
        alloc: Global,
        place: Place,
        done: Result<(), Refusal>,
    ) -> Result<bool, PreFault>
        ensures { IsTold self.now place done result }
    {
        match done {
            Ok(()) => Ok(true),
            Err(Refusal::Fault(kind)) => Err(self.fault(alloc, kind, place)),
            Err(Refusal::Memory) => Err(PreFault::Memory),
        }
    }
}

/// The name of a file by its number.
fn file_name(names: &Names, file: u64) -> &[u8]
    ensures { result.now ≡ name_of names.now file }
{
    match names.get(file as usize) {
        Some(name) => name,
        None => &[],
    }
}

/// Reads a file whose name is plain text.
fn read_named<F: Files>(alloc: Global, files: &mut F, name: &[u8]) -> ReadAnswer
    requires { IsAscii name.now }
    ensures answer { IsRead (F.held files.old) name.now FILE_LIMIT result }
    ensures files { OnlyRead F.held F.faults F.never_fails files.old files.new
        (result ≡ ReadAnswer.Failed) }
{
    match str::from_utf8(name) {
        Ok(text) => files.read(alloc, text, FILE_LIMIT),
        Err(_) => ReadAnswer::Missing,
    }
}
