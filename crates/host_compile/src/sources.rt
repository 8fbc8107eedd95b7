ghost use Rattle.std.specs.Prelude.{◌≡◌, IfOk};
ghost use Rattle.host_compile.specs.Compiles.{CompilesSo, HoldsSo};
ghost use Rattle.host_compile.specs.Sources.{no_sources};

use pawn_base::Memory;
use pawn_front::{CompileFault, Compiled, Encoding, compile};
use pawn_outside::MemoryFiles;
use std::alloc::Global;
use std::marker::Model;

/// Sources and includes in memory by their names, and what the last source that was compiled came
/// to. Contracts see both.
#[derive(Drop)]
pub struct Sources {
    files: MemoryFiles,
    pub(crate) answer: Option<Result<Compiled, CompileFault>>,
}

impl Model for Sources {
    ghost use Rattle.std.specs.Prelude.{◌≡◌, []};
    ghost use Rattle.host_compile.specs.Sources.{Sources};
    ghost use Rattle.host_compile.specs.Coded.{sources_code};

    ghost Value = { Sources };

    ghost coded = { sources_code };

    ghost view = { λ it. record { held = it.files.held; answer = it.answer } };

    // No read of them fails.
    ghost invariant = { λ it. it.files.schedule.fails ≡ [] };
}

impl Sources {
    /// No source.
    pub fn new(alloc: Global) -> Result<Sources, Memory>
        ensures { IfOk result (λ it. it ≡ no_sources) }
    {
        let files = MemoryFiles::new(alloc, &[])?;
        Ok(Sources {
            files,
            answer: None,
        })
    }

    /// Gives a name these bytes, in place of what it held before.
    pub fn hold(&mut self, name: &str, bytes: &[u8]) -> Result<(), Memory>
        ensures { HoldsSo self.old name.now bytes.now result self.new }
    {
        self.files.hold(name, bytes)
    }

    /// Compiles the source of a name over the files that are held, plain or compact, and keeps what
    /// it comes to: the file of the program that the source means and its warnings, or the fault of
    /// the first layer that refuses it.
    pub fn compile(&mut self, alloc: Global, name: &str, encoding: Encoding)
        ensures { CompilesSo self.old name.now encoding self.new }
    {
        self.answer = Some(compile(alloc, name, &mut self.files, encoding));
    }
}
