ghost use Rattle.std.specs.Prelude.{◌≡◌};

use pawn_base::Memory;
use thiserror::Error;

/// A field of a script, as a refusal names it.
#[derive(Clone, Copy, Debug, PartialEq, Eq)]
pub enum Field {
    Script,
    Others,
    Natives,
    Answers,
    Name,
    Forms,
    Rest,
    Result,
    Writes,
    Arg,
    Cells,
    Error,
}

/// Why bytes are no script. The field is the innermost one that breaks its form; one that isn't
/// known is named by the field whose object has it.
#[derive(Clone, Copy, Debug, PartialEq, Eq, Error)]
pub enum ScriptFault {
    #[error("no JSON")]
    Json,
    /// A value of another type, an unknown or a missing field, or a name twice.
    #[error("a field has another form")]
    Shape(Field),
    /// A number, a length or a count outside its range.
    #[error("a field is outside its range")]
    Range(Field),
    #[error("no memory")]
    Memory,
}

impl ScriptFault {
    ghost use Rattle.script_reader.specs.Reading.{number_of};

    /// The number of the refusal, from 130 to 132, or nothing for want of memory.
    pub fn number(&self) -> Option<u8>
        ensures { result ≡ number_of self.now }
    {
        match self {
            ScriptFault::Json => Some(130),
            ScriptFault::Shape(_) => Some(131),
            ScriptFault::Range(_) => Some(132),
            ScriptFault::Memory => None,
        }
    }
}

impl From<Memory> for ScriptFault {
    ghost use Rattle.std.specs.Prelude.{◌≡◌};
    ghost use Rattle.script_reader.specs.declared.fault.ScriptFault.TheVariants as variants;

    ghost from_gives = { λ _ fault. fault ≡ variants.Memory };

    fn from(_: Memory) -> ScriptFault {
        ScriptFault::Memory
    }
}
