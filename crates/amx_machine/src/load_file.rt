ghost use Rattle.std.specs.Prelude.{◌≡◌, IfOk};
ghost use Rattle.amx_format.specs.File.{IsFile};
ghost use Rattle.amx_machine.specs.Machine.{first};

use super::machine::Machine;
use super::mode::Mode;
use amx_step::Core;
use amx_verify::Verified;
use pawn_base::Memory;
use std::alloc::Global;

impl Machine {
    /// The machine that [`Machine::load`] gives, by the bytes that the file was read from. Compact
    /// cells are expanded in the machine's own memory where they can be.
    pub fn load_file(alloc: Global, verified: Verified, bytes: &[u8]) -> Result<Machine, Memory>
        requires { IsFile bytes.now verified }
        ensures { IfOk result (λ machine. machine ≡ first verified) }
    {
        let core = Core::load_file(alloc, verified, bytes)?;
        Ok(Machine {
            core,
            mode: Mode::Loaded,
        })
    }
}
