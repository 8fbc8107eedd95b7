ghost use Rattle.std.specs.Prelude.{◌≡◌};
ghost use Rattle.amx_image.specs.Version.{version_number, version_of};

/// The number of images with all cells.
pub const WHOLE: u16 = 1;

/// The number of images with the live cells alone.
pub const LIVE: u16 = 2;

/// Which cells of a machine an image holds.
#[derive(Clone, Copy, Debug, PartialEq, Eq)]
pub enum Version {
    /// All, from the data's first one to the stack's top.
    Whole,
    /// Those below HEA, and those from STK on.
    Live,
}

impl Version {
    /// The version with a number.
    pub fn of(number: u16) -> Option<Version>
        ensures { result ≡ version_of number }
    {
        if number == WHOLE {
            Some(Version::Whole)
        } else if number == LIVE {
            Some(Version::Live)
        } else {
            None
        }
    }
}
