ghost use Rattle.std.specs.Prelude.{◌≡◌};
ghost use Rattle.host_embed.specs.Refusals as refusals;

use amx_image::ImageFault;
use thiserror::Error;

/// Why a call isn't done. It has changed nothing then.
#[derive(Clone, Copy, Debug, PartialEq, Eq, Error)]
pub enum Refusal {
    /// The machine's mode doesn't allow the call.
    #[error("not now")]
    Mode,
    /// There is no entry, native or argument with this number or name.
    #[error("no such number")]
    Index,
    /// The cells of a start find no room.
    #[error("no room")]
    Stack,
    /// Fewer cells are live from the address on.
    #[error("no such memory")]
    Dead,
    /// Bytes that are no image of the file.
    #[error("no image: {0}")]
    Image(ImageFault),
}

impl Refusal {
    /// Its number: -1 for the mode, else that of the AMX error (Implementer's Guide, "Error codes")
    /// or of the image's fault.
    pub fn code(self) -> i32
        ensures { result ≡ refusals.number_of self }
    {
        match self {
            Refusal::Mode => -1,
            Refusal::Index => 20,
            Refusal::Stack => 3,
            Refusal::Dead => 5,
            Refusal::Image(fault) => i32::from(fault.number()),
        }
    }
}

/// The number of a call's answer: 0 where it is done.
pub fn code_of(answer: Result<(), Refusal>) -> i32
    ensures { result ≡ refusals.code_of answer }
{
    match answer {
        Ok(()) => 0,
        Err(refusal) => refusal.code(),
    }
}
