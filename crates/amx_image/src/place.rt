//! Where the parts of an image stand. All numbers have their lowest byte first.
//!
//! ```text
//!  0  PWNI     4  version  6  zero     8  digest of the file
//! 40  script position
//! 44  PRI     48  ALT     52  FRM     56  CIP     60  STK     64  HEA
//! 68  the number of cells from the data's first one to the stack's top
//! 72  cells
//! ```

/// The bytes that an image begins with.
pub const MAGIC: [u8; 4] = [b'P', b'W', b'N', b'I'];

pub const VERSION: usize = 4;

pub const ZERO: usize = 6;

pub const DIGEST: usize = 8;

pub const POSITION: usize = 40;

pub const PRI: usize = 44;

pub const ALT: usize = 48;

pub const FRM: usize = 52;

pub const CIP: usize = 56;

pub const STK: usize = 60;

pub const HEA: usize = 64;

pub const COUNT: usize = 68;

pub const CELLS: usize = 72;
