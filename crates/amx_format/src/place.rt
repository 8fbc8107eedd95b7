//! Where the fields of a file's header stand (Implementer's Guide, "File format"). All numbers have
//! their lowest byte first.
//!
//! ```text
//!  0  size          4  magic    6 file version, 7 AMX version
//!  8  flags, 10 bytes of a record
//! 12  cod          16  dat     20  hea     24  stp     28  cip
//! 32  publics      36  natives 40  libraries           44  public variables
//! 48  tags         52  name table
//! 56  the tables, one behind the other; the name table; from cod on code and data
//! ```

pub const SIZE: usize = 0;

pub const MAGIC: usize = 4;

pub const FILE_VERSION: usize = 6;

pub const VERSION: usize = 7;

pub const FLAGS: usize = 8;

pub const RECORD: usize = 10;

pub const COD: usize = 12;

pub const DAT: usize = 16;

pub const HEA: usize = 20;

pub const STP: usize = 24;

pub const CIP: usize = 28;

pub const PUBLICS: usize = 32;

pub const NATIVES: usize = 36;

pub const LIBRARIES: usize = 40;

pub const VARIABLES: usize = 44;

pub const TAGS: usize = 48;

pub const NAMES: usize = 52;
