ghost use Rattle.std.specs.Prelude.{◌≡◌};
ghost use Rattle.host_compile.specs.Answers as answers;

use super::sources::Sources;
use pawn_front::{CompileFault, Warning};

// What the last source that was compiled came to.
impl Sources {
    /// Its number, that of the program's statuses: 0 there is a file, 1 the source breaks a rule, 3
    /// it isn't held, 4 a file is too large, 15 want of memory; -1 where none was compiled.
    pub fn status(&self) -> i32
        ensures { result ≡ answers.status_of self.now.answer }
    {
        match &self.answer {
            None => -1,
            Some(Ok(_)) => 0,
            Some(Err(fault)) => status_by(fault),
        }
    }

    /// The bytes of the file, none without one.
    pub fn bytes(&self) -> &[u8]
        ensures { result.now ≡ answers.bytes_of self.now.answer }
    {
        match &self.answer {
            Some(Ok(compiled)) => compiled.bytes.as_slice(),
            None | Some(Err(_)) => &[],
        }
    }

    /// The warnings of its source, in the order of their tokens.
    pub fn warnings(&self) -> &[Warning]
        ensures { result.now ≡ answers.warnings_of self.now.answer }
    {
        match &self.answer {
            Some(Ok(compiled)) => compiled.warnings.as_slice(),
            None | Some(Err(_)) => &[],
        }
    }

    /// The number of the rule that the source breaks, from 1 to 71; 0 where it breaks none.
    pub fn rule(&self) -> u8
        ensures { result ≡ answers.rule_of self.now.answer }
    {
        match &self.answer {
            Some(Err(CompileFault::Refused { kind, .. })) => *kind,
            None | Some(Ok(_)) | Some(Err(_)) => 0,
        }
    }

    /// The name of the file that breaks it, or that is too large; else no bytes.
    pub fn file(&self) -> &[u8]
        ensures { result.now ≡ answers.file_of self.now.answer }
    {
        match &self.answer {
            Some(Err(CompileFault::Refused { file, .. } | CompileFault::TooLarge(file))) => {
                file.as_slice()
            }
            None | Some(Ok(_)) | Some(Err(_)) => &[],
        }
    }

    /// The number of the line that breaks it, from 1; 0 where none does.
    pub fn line(&self) -> u32
        ensures { result ≡ answers.line_of self.now.answer }
    {
        match &self.answer {
            Some(Err(CompileFault::Refused { line, .. })) => *line,
            None | Some(Ok(_)) | Some(Err(_)) => 0,
        }
    }
}

/// The number of a fault.
fn status_by(fault: &CompileFault) -> i32
    ensures { result ≡ answers.status_by fault.now }
{
    match fault {
        CompileFault::Refused { .. } => 1,
        CompileFault::NoSource => 3,
        CompileFault::TooLarge(_) => 4,
        CompileFault::Files => 5,
        CompileFault::Memory => 15,
    }
}
