ghost use Rattle.std.specs.Prelude.{◌≡◌, ◌≤◌, ◌↔◌, ◌∷◌, None, map, length, IfOk, IfErr, IfSome};
ghost use Rattle.std.specs.Prelude.{IsTrue};
ghost use Rattle.std.specs.Fmt.{decimal};
ghost use Rattle.std.specs.String.{string_bytes};
ghost use Rattle.command_parts.specs.Reading.{IsBad, Reads};
ghost use Rattle.command_parts.specs.Options.{no_options, number_up_to, options_from};
ghost use Rattle.command_parts.specs.Options.{with_option, with_steps, with_sleeps, with_entry};
ghost use Rattle.command_parts.specs.Options.{with_count};

use super::command_words::WordsFault;
use itoa::Buffer;
use pawn_base::Bytes;
use std::alloc::Global;

/// The most steps of a segment between two sleeps, where the words don't say.
pub const DEFAULT_STEPS: u64 = 10_000_000;

/// How many sleeps are continued, where the words don't say.
pub const DEFAULT_SLEEPS: u32 = 1_000;

/// The greatest number of steps that may be asked.
pub const MOST_STEPS: u64 = 0xFFFF_FFFF_FFFF_FFFF;

/// The greatest number of sleeps that may be asked.
pub const MOST_SLEEPS: u64 = 0xFFFF_FFFF;

/// The options among the words.
#[derive(Debug, Drop)]
pub struct Options {
    pub steps: Option<u64>,
    pub sleeps: Option<u32>,
    pub entry: Option<Bytes>,
    pub count: bool,
}

/// Reads options with their values, each at most once.
pub fn read_options(alloc: Global, words: &[String]) -> Result<Options, WordsFault>
    ensures { Reads (options_from no_options (map string_bytes words.now)) result }
{
    let mut options = Options {
        steps: None,
        sleeps: None,
        entry: None,
        count: false,
    };
    let mut rest = words;
    while let Some((flag, others)) = rest.split_first() {
        let (more, behind) = options.with_front(alloc, flag.as_str(), others)?;
        options = more;
        rest = behind;
    }
    Ok(options)
}

impl Options {
    /// The options with the one that a word begins, and the words behind it and its value.
    fn with_front<'w>(
        self,
        alloc: Global,
        flag: &str,
        others: &'w [String],
    ) -> Result<(Options, &'w [String]), WordsFault>
        ensures more { IfOk result (λ it. options_from self (flag.now ∷ map string_bytes others.now)
            ≡ options_from it.0 (map string_bytes it.1.now)) }
        ensures fewer { IfOk result (λ it. length it.1.now ≤ length others.now) }
        ensures bad { IfErr result (λ fault. IsBad fault
            (options_from self (flag.now ∷ map string_bytes others.now) ≡ None)) }
    {
        if flag == "--count" {
            let counted = self.with_count()?;
            return Ok((counted, others));
        }
        let Some((value, behind)) = others.split_first() else {
            return Err(WordsFault::Bad);
        };
        let options = self.with(alloc, flag, value.as_str())?;
        Ok((options, behind))
    }

    /// The options with one more, which wasn't given before.
    fn with(self, alloc: Global, flag: &str, value: &str) -> Result<Options, WordsFault>
        ensures { Reads (with_option flag.now value.now self) result }
    {
        if flag == "--steps" {
            self.with_steps(value)
        } else if flag == "--sleeps" {
            self.with_sleeps(value)
        } else if flag == "--entry" {
            self.with_entry(alloc, value)
        } else {
            Err(WordsFault::Bad)
        }
    }

    fn with_steps(mut self, value: &str) -> Result<Options, WordsFault>
        ensures { Reads (with_steps value.now self) result }
    {
        if self.steps.is_some() {
            return Err(WordsFault::Bad);
        }
        let Some(steps) = number_up_to(value, MOST_STEPS) else {
            return Err(WordsFault::Bad);
        };
        self.steps = Some(steps);
        Ok(self)
    }

    fn with_sleeps(mut self, value: &str) -> Result<Options, WordsFault>
        ensures { Reads (with_sleeps value.now self) result }
    {
        if self.sleeps.is_some() {
            return Err(WordsFault::Bad);
        }
        let Some(sleeps) = number_up_to(value, MOST_SLEEPS) else {
            return Err(WordsFault::Bad);
        };
        self.sleeps = Some(sleeps as u32);
        Ok(self)
    }

    fn with_count(mut self) -> Result<Options, WordsFault>
        ensures { Reads (with_count self) result }
    {
        if self.count {
            return Err(WordsFault::Bad);
        }
        self.count = true;
        Ok(self)
    }

    fn with_entry(mut self, alloc: Global, value: &str) -> Result<Options, WordsFault>
        ensures { Reads (with_entry value.now self) result }
    {
        if self.entry.is_some() {
            return Err(WordsFault::Bad);
        }
        self.entry = Some(Bytes::from_slice(alloc, value.as_bytes())?);
        Ok(self)
    }
}

/// The number that a word is the plain decimal form of, where it isn't above a limit.
pub fn number_up_to(word: &str, most: u64) -> Option<u64>
    ensures value { result ≡ number_up_to most word.now }
    ensures within { IfSome result (λ number. number ≤ most) }
{
    let Ok(number) = word.parse::<u64>() else {
        return None;
    };
    if number <= most && is_decimal(number, word.as_bytes()) {
        Some(number)
    } else {
        None
    }
}

/// Whether some bytes are a number's decimal form, which has no zero at its front but its own.
fn is_decimal(number: u64, digits: &[u8]) -> bool
    ensures { IsTrue result ↔ (digits.now ≡ decimal number) }
{
    let mut buffer = Buffer::new();
    buffer.format(number).as_bytes() == digits
}
