ghost use Rattle.std.specs.Prelude.{◌≡◌};
ghost use Rattle.host_embed.specs.Images.{RestoresSo, SavesSo};

use super::held::Held;
use super::modes::is_asleep;
use super::refusal::Refusal;
use amx_image::{restore_into, save_into};

// Images.
impl Held {
    /// Makes the image of a machine at a sleep, with a number that its host keeps there.
    pub fn save(&mut self, position: u32) -> Result<(), Refusal>
        ensures { SavesSo self.old position result self.new }
    {
        if !is_asleep(self.machine.mode()) {
            return Err(Refusal::Mode);
        }
        // For the prover alone: by its clauses the room is enough.
        let _ = self.machine.registers();
        save_into(&self.machine, position, &self.digest, &mut self.image);
        Ok(())
    }

    /// Lends the bytes of the image that was saved last: none before the first.
    pub fn image(&self) -> &[u8]
        ensures { result.now ≡ self.now.image }
    {
        self.image.bytes()
    }

    /// Sets the machine, whatever its mode, to the state of an image of its file, at a sleep, and
    /// tells the number that was kept there.
    pub fn restore(&mut self, bytes: &[u8]) -> Result<u32, Refusal>
        ensures { RestoresSo self.old bytes.now result self.new }
    {
        match restore_into(&mut self.machine, &self.digest, bytes) {
            Ok(position) => Ok(position),
            Err(fault) => return Err(Refusal::Image(fault)),
        }
    }
}
