use super::name::Name;
use pawn_base::Bytes;

/// What `compile` is asked to do.
#[derive(Debug, Drop)]
pub struct CompileWords {
    /// The names of the source and of the file that is put.
    pub src: Name,
    pub amx: Name,
    /// Whether the cells of the file are compact.
    pub compact: bool,
}

/// What `assemble` is asked to do.
#[derive(Debug, Drop)]
pub struct AssembleWords {
    /// The names of the text and of the file that is put.
    pub text: Name,
    pub amx: Name,
    /// Whether the cells of the file are compact.
    pub compact: bool,
}

/// What `run` is asked to do.
#[derive(Debug, Drop)]
pub struct RunWords {
    /// The names of the AMX file, of the script, and of the image that may be put.
    pub amx: Name,
    pub script: Name,
    pub image: Name,
    /// The most steps.
    pub steps: u64,
    /// `main`, or the name of a public.
    pub entry: Bytes,
    /// Whether the steps that were done are told.
    pub count: bool,
}

/// What `resume` is asked to do.
#[derive(Debug, Drop)]
pub struct ResumeWords {
    /// The names of the AMX file, of the script, and of the image that is read and may be put.
    pub amx: Name,
    pub script: Name,
    pub image: Name,
    /// The most steps.
    pub steps: u64,
    /// Whether the steps that were done are told.
    pub count: bool,
}

/// What `go` is asked to do.
#[derive(Debug, Drop)]
pub struct GoWords {
    /// The names of the source and of the file that is put.
    pub src: Name,
    pub amx: Name,
    /// The name of the script, if there is one.
    pub script: Option<Name>,
    /// The most steps of a segment.
    pub steps: u64,
    /// How many sleeps it goes on behind.
    pub sleeps: u32,
    /// Whether the steps that were done are told.
    pub count: bool,
}

/// What `sample` is asked to do.
#[derive(Debug, Drop)]
pub struct SampleWords {
    /// How many functions the source has, from 1 to 500.
    pub functions: u32,
    /// The name of the file that is put.
    pub amx: Name,
}

/// What the program is asked to do. An option that isn't given has its default.
#[derive(Debug, Drop)]
pub enum Command {
    Compile(CompileWords),
    Assemble(AssembleWords),
    Verify { amx: Name },
    List { amx: Name },
    Sizes { amx: Name },
    /// All numbers are told, or one that is printed.
    Explain { number: Option<u8> },
    /// All commands are told, or the one with this word.
    Help { word: Option<Name> },
    Version,
    Run(RunWords),
    Resume(ResumeWords),
    Go(GoWords),
    Sample(SampleWords),
    Usage { src: Name },
    Many { plan: Name },
}
