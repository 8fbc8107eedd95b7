ghost use Rattle.std.specs.Prelude.{◌≡◌, OnOk, IfOk};
ghost use Rattle.pawn_pre.specs.Work as acts;
ghost use Rattle.pawn_pre.specs.Acted.{Acted};
ghost use Rattle.pawn_pre.specs.Expansion.{Tells};
ghost use Rattle.pawn_pre.specs.ConditionMachine.{value_of};

use super::blanks::past_blanks;
use super::define::{read_definition, undefined};
use super::directive::{Setting, Word, pragma, quoted_byte};
use super::level::Level;
use super::line::{Line, MOST_BYTES};
use super::refusal::{
    BAD_CONDITION, BAD_PATTERN, ERROR_DIRECTIVE, FALSE_ASSERT, LONG_SOURCE, Refusal,
    UNBALANCED_CONDITIONAL, UNKNOWN_DIRECTIVE,
};
use super::state::{Conditional, Part, Settings};
use super::table::Table;
use pawn_base::{Bytes, List, Memory};
use pawn_cells::Place;
use std::alloc::Global;

/// What the lines of the innermost open file work on.
#[derive(Drop)]
pub struct Work {
    pub lines: List<Line>,
    /// The bytes of all lines together.
    pub size: u64,
    pub rules: Table,
    pub settings: Settings,
    pub top: Level,
}

impl Work {
    /// Nothing kept, defined or set. The control character is `\\`, and the room is 4,096 cells.
    pub fn new(alloc: Global, top: Level) -> Work
        ensures { result ≡ acts.nothing_in top }
    {
        Work {
            lines: List::new(alloc),
            size: 0,
            rules: Table::new(alloc),
            settings: Settings {
                control: b'\\',
                strict: false,
                packed: false,
                dynamic: 4096,
            },
            top,
        }
    }

    pub fn is_in_chosen(&self) -> bool
        ensures { result ≡ acts.is_in_chosen self.now }
    {
        self.top.is_chosen()
    }

    /// Keeps a line that is no directive.
    #[tactic(auto, unfolding(crate::specs::Work::keep_line))]
    pub fn keep(&mut self, alloc: Global, number: u32, bytes: &[u8]) -> Result<(), Refusal>
        ensures { Acted (acts.keep_line self.old number bytes.now) result self.new }
    {
        if !self.is_in_chosen() {
            return Ok(());
        }
        let line = self.rules.expanded(alloc, self.settings.control, bytes)?;
        self.push_line(number, line)
    }

    /// What a directive does.
    #[tactic(auto, unfolding(crate::specs::Work::act))]
    pub fn act(&mut self, alloc: Global, word: Word, rest: &[u8]) -> Result<(), Refusal>
        ensures { Acted (acts.act value_of self.old word rest.now) result self.new }
    {
        match word {
            Word::If => self.begin_if(alloc, rest),
            Word::ElseIf => self.turn_elseif(alloc, rest),
            Word::Else => self.turn_else(),
            Word::Endif => self.end_if(),
            Word::Define
            | Word::Undef
            | Word::Include
            | Word::TryInclude
            | Word::Error
            | Word::Assert
            | Word::Endinput
            | Word::Pragma
            | Word::Unknown => {
                if !self.is_in_chosen() {
                    return Ok(());
                }
                self.act_in_chosen(alloc, word, rest)
            }
        }
    }

    /// Puts a line at the end.
    fn push_line(&mut self, number: u32, bytes: Bytes) -> Result<(), Refusal>
        ensures { Acted (acts.with_kept_line self.old number bytes) result self.new }
    {
        let len = bytes.len() as u64;
        if self.size > MOST_BYTES || len > MOST_BYTES - self.size {
            return Err(Refusal::Fault(LONG_SOURCE));
        }
        let line = Line {
            place: Place {
                file: self.top.file(),
                line: number,
            },
            ctrl: self.settings.control,
            strict: self.settings.strict,
            packed: self.settings.packed,
            bytes,
        };
        self.lines.push(line)?;
        self.size += len;
        Ok(())
    }

    fn push_part(&mut self, part: Part) -> Result<(), Memory>
        ensures { OnOk result (self.new ≡ acts.push self.old part) }
    {
        self.top.push(Conditional { part, past: false })
    }

    /// Another innermost conditional.
    fn replace(&mut self, conditional: Conditional) -> Result<(), Memory>
        ensures { OnOk result (self.new ≡ acts.with_innermost self.old conditional) }
    {
        self.top.pop();
        self.top.push(conditional)
    }

    fn condition(&self, alloc: Global, rest: &[u8]) -> Result<i32, Refusal>
        ensures { Tells (acts.condition_of value_of self.now rest.now) result }
    {
        self.rules.condition(alloc, self.settings.control, rest)
    }

    fn number(&self, alloc: Global, rest: &[u8]) -> Result<i32, Refusal>
        ensures { Tells (acts.number_of value_of self.now rest.now) result }
    {
        self.rules.number(alloc, self.settings.control, rest)
    }

    #[tactic(auto, unfolding(crate::specs::Work::begin_if))]
    fn begin_if(&mut self, alloc: Global, rest: &[u8]) -> Result<(), Refusal>
        ensures { Acted (acts.begin_if value_of self.old rest.now) result self.new }
    {
        if !self.is_in_chosen() {
            self.push_part(Part::Done)?;
            return Ok(());
        }
        let value = self.condition(alloc, rest)?;
        self.push_part(part_of(value))?;
        Ok(())
    }

    #[tactic(auto, unfolding(crate::specs::Work::turn_elseif))]
    fn turn_elseif(&mut self, alloc: Global, rest: &[u8]) -> Result<(), Refusal>
        ensures { Acted (acts.turn_elseif value_of self.old rest.now) result self.new }
    {
        let Some(open) = self.top.innermost() else {
            return Err(Refusal::Fault(UNBALANCED_CONDITIONAL));
        };
        if open.past {
            return Err(Refusal::Fault(UNBALANCED_CONDITIONAL));
        }
        match open.part {
            Part::Chosen | Part::Done => {
                self.replace(Conditional {
                    part: Part::Done,
                    past: false,
                })?;
                Ok(())
            }
            Part::Waiting => {
                let value = self.condition(alloc, rest)?;
                self.replace(Conditional {
                    part: part_of(value),
                    past: false,
                })?;
                Ok(())
            }
        }
    }

    #[tactic(auto, unfolding(crate::specs::Work::turn_else))]
    fn turn_else(&mut self) -> Result<(), Refusal>
        ensures { Acted (acts.turn_else self.old) result self.new }
    {
        let Some(open) = self.top.innermost() else {
            return Err(Refusal::Fault(UNBALANCED_CONDITIONAL));
        };
        if open.past {
            return Err(Refusal::Fault(UNBALANCED_CONDITIONAL));
        }
        self.replace(Conditional {
            part: else_part(open.part),
            past: true,
        })?;
        Ok(())
    }

    #[tactic(auto, unfolding(crate::specs::Work::end_if))]
    fn end_if(&mut self) -> Result<(), Refusal>
        ensures { Acted (acts.end_if self.old) result self.new }
    {
        match self.top.innermost() {
            None => Err(Refusal::Fault(UNBALANCED_CONDITIONAL)),
            Some(_open) => {
                self.top.pop();
                Ok(())
            }
        }
    }

    #[tactic(auto, unfolding(crate::specs::Work::assert_true))]
    fn assert_true(&mut self, alloc: Global, rest: &[u8]) -> Result<(), Refusal>
        ensures { Acted (acts.assert_true value_of self.old rest.now) result self.new }
    {
        if self.condition(alloc, rest)? == 0 {
            return Err(Refusal::Fault(FALSE_ASSERT));
        }
        Ok(())
    }

    #[tactic(auto, unfolding(crate::specs::Work::define))]
    fn define(&mut self, alloc: Global, rest: &[u8]) -> Result<(), Refusal>
        ensures { Acted (acts.define self.old rest.now) result self.new }
    {
        let Some(definition) = read_definition(alloc, self.settings.control, rest)? else {
            return Err(Refusal::Fault(BAD_PATTERN));
        };
        let key = copy_of(alloc, definition.key.as_slice())?;
        self.rules.insert(key, definition.rule)?;
        Ok(())
    }

    #[tactic(auto, unfolding(crate::specs::Work::remove_definition))]
    fn undefine(&mut self, rest: &[u8])
        ensures { acts.remove_definition self.old rest.now ≡ Ok self.new }
    {
        if let Some(key) = undefined(rest) {
            self.rules.remove(key);
        }
    }

    #[tactic(auto, unfolding(crate::specs::Work::set_pragma))]
    fn set_pragma(&mut self, alloc: Global, rest: &[u8]) -> Result<(), Refusal>
        ensures { Acted (acts.set_pragma value_of self.old rest.now) result self.new }
    {
        let parts = pragma(rest);
        match parts.setting {
            Setting::Semicolon => {
                let value = self.number(alloc, parts.rest)?;
                self.settings.strict = value != 0;
                Ok(())
            }
            Setting::Pack => {
                let value = self.number(alloc, parts.rest)?;
                self.settings.packed = value != 0;
                Ok(())
            }
            Setting::Control => match quoted_byte(past_blanks(parts.rest)) {
                Some(byte) => {
                    self.settings.control = byte;
                    Ok(())
                }
                None => Err(Refusal::Fault(BAD_CONDITION)),
            },
            Setting::Dynamic => {
                let value = self.number(alloc, parts.rest)?;
                self.settings.dynamic = value;
                Ok(())
            }
            Setting::Other => Ok(()),
        }
    }

    fn end_input(&mut self)
        ensures { self.new ≡ acts.end_input self.old }
    {
        self.top.end();
    }

    /// What a directive does in a chosen part. Includes are told apart before.
    fn act_in_chosen(&mut self, alloc: Global, word: Word, rest: &[u8]) -> Result<(), Refusal>
        ensures { Acted (acts.in_chosen value_of self.old word rest.now) result self.new }
    {
        match word {
            Word::Define => self.define(alloc, rest),
            Word::Undef => {
                self.undefine(rest);
                Ok(())
            }
            Word::Error => Err(Refusal::Fault(ERROR_DIRECTIVE)),
            Word::Assert => self.assert_true(alloc, rest),
            Word::Endinput => {
                self.end_input();
                Ok(())
            }
            Word::Pragma => self.set_pragma(alloc, rest),
            Word::Unknown => Err(Refusal::Fault(UNKNOWN_DIRECTIVE)),
            Word::If | Word::ElseIf | Word::Else | Word::Endif | Word::Include | Word::TryInclude =>
                Ok(()),
        }
    }
}

fn part_of(value: i32) -> Part
    ensures { result ≡ acts.part_of_value value }
{
    if value == 0 {
        Part::Waiting
    } else {
        Part::Chosen
    }
}

fn else_part(part: Part) -> Part
    ensures { result ≡ acts.else_part part }
{
    match part {
        Part::Waiting => Part::Chosen,
        Part::Chosen | Part::Done => Part::Done,
    }
}

fn copy_of(alloc: Global, bytes: &[u8]) -> Result<Vec<u8>, Memory>
    ensures { IfOk result (λ copy. copy.items ≡ bytes.now) }
{
    Ok(Vec::from_slice(alloc, bytes)?)
}
