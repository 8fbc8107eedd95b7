ghost use Rattle.std.specs.Prelude.{◌≡◌, ◌+◌, ◌*◌, ◌<◌, ◌≤◌, ◌↔◌, length, IsTrue, true};
ghost use Rattle.amx_format.specs.Header.{header_of, is_compact, may_go_on, kept, IsPart};
ghost use Rattle.amx_format.specs.Header.{HasVersions, HasSize, HasTables, HasParts, HasOrder};
ghost use Rattle.amx_format.specs.Records.{record_count, name_place};

use super::number::{read_cell, read_half, read_word};
use super::place;

/// The bytes of a header.
pub const HEADER: u32 = 56;

/// The two bytes behind the size.
pub const MAGIC: u16 = 0xF1E0;

/// The version of the format.
pub const FILE_VERSION: u8 = 8;

/// The greatest AMX version.
pub const LAST_VERSION: u8 = 8;

/// The bytes of a record.
pub const RECORD: u16 = 8;

/// The flag of files with bytes behind their size.
pub const GOES_ON: u16 = 0x02;

/// The flag of files with compact cells.
pub const COMPACT: u16 = 0x04;

/// The most bytes of a file that the commands read, and that is made of a source.
pub const FILE_LIMIT: u64 = 67_108_864;

/// The bytes of code, data, heap and stack at most.
pub const MEMORY_LIMIT: u32 = 134_217_728;

/// A file's header.
#[derive(Clone, Copy, Debug, PartialEq, Eq)]
pub struct Header {
    pub size: u32,
    pub magic: u16,
    pub file_version: u8,
    pub version: u8,
    pub flags: u16,
    pub record_size: u16,
    pub cod: u32,
    pub dat: u32,
    pub hea: u32,
    pub stp: u32,
    pub cip: i32,
    pub publics: u32,
    pub natives: u32,
    pub libraries: u32,
    pub variables: u32,
    pub tags: u32,
    pub names: u32,
}

impl Header {
    #[tactic(auto, unfolding(crate::specs::Header::header_of))]
    pub fn read(bytes: &[u8]) -> Header
        requires { HEADER ≤ length bytes.now }
        ensures { result ≡ header_of bytes.now }
    {
        Header {
            size: read_word(bytes, place::SIZE),
            magic: read_half(bytes, place::MAGIC),
            file_version: bytes[place::FILE_VERSION],
            version: bytes[place::VERSION],
            flags: read_half(bytes, place::FLAGS),
            record_size: read_half(bytes, place::RECORD),
            cod: read_word(bytes, place::COD),
            dat: read_word(bytes, place::DAT),
            hea: read_word(bytes, place::HEA),
            stp: read_word(bytes, place::STP),
            cip: read_cell(bytes, place::CIP),
            publics: read_word(bytes, place::PUBLICS),
            natives: read_word(bytes, place::NATIVES),
            libraries: read_word(bytes, place::LIBRARIES),
            variables: read_word(bytes, place::VARIABLES),
            tags: read_word(bytes, place::TAGS),
            names: read_word(bytes, place::NAMES),
        }
    }

    /// Whether code and data are compact cells.
    pub fn is_compact(&self) -> bool
        ensures { result ≡ is_compact self.now.flags }
    {
        self.flags / COMPACT % 2 == 1
    }

    /// Whether bytes may stand behind the size.
    fn may_go_on(&self) -> bool
        ensures { result ≡ may_go_on self.now.flags }
    {
        self.flags / GOES_ON % 2 == 1
    }

    /// The flags that say nothing of the file's form.
    pub fn kept_flags(&self) -> u16
        ensures { result ≡ kept self.now.flags }
    {
        self.flags / 8 * 8 + self.flags % 2
    }

    pub fn has_versions(&self) -> bool
        ensures { IsTrue result ↔ HasVersions self.now }
    {
        self.file_version == FILE_VERSION && 1 <= self.version && self.version <= LAST_VERSION
    }

    /// Whether the size is one of so many bytes.
    pub fn has_size(&self, length: usize) -> bool
        ensures { IsTrue result ↔ HasSize self.now length }
    {
        HEADER <= self.size
            && self.size < 1 << 31
            && self.size as usize <= length
            && (self.size as usize == length || self.may_go_on())
            && (self.is_compact() || self.size == self.hea)
    }

    fn has_tables(&self) -> bool
        ensures { IsTrue result ↔ HasTables self.now }
    {
        HEADER <= self.publics
            && is_part(8, self.publics, self.natives)
            && is_part(8, self.natives, self.libraries)
            && is_part(8, self.libraries, self.variables)
            && is_part(8, self.variables, self.tags)
            && is_part(8, self.tags, self.names)
            && self.names as usize + 2 <= self.cod as usize
    }

    fn has_parts(&self) -> bool
        ensures { IsTrue result ↔ HasParts self.now }
    {
        is_part(4, self.cod, self.dat)
            && is_part(4, self.dat, self.hea)
            && is_part(4, self.hea, self.stp)
            && self.stp - self.cod <= MEMORY_LIMIT
            && self.stp < 1 << 31
            && self.has_row()
    }

    /// Whether compact cells end behind their begin.
    fn has_row(&self) -> bool
        ensures { IsTrue result ↔ (is_compact self.now.flags ≡ true →
            self.now.cod ≤ self.now.size) }
    {
        !self.is_compact() || self.cod <= self.size
    }

    /// Whether tables and parts rise as they have to.
    pub fn has_order(&self) -> bool
        ensures { IsTrue result ↔ HasOrder self.now }
    {
        self.has_tables() && self.has_parts()
    }

    /// The records of all tables.
    pub fn records(&self) -> usize
        ensures { result ≡ record_count self.now }
    {
        (self.names.saturating_sub(self.publics) / 8) as usize
    }

    /// Where the name of a record stands, the records of all tables counted from 0.
    pub fn name_place(&self, bytes: &[u8], index: usize) -> u32
        requires within { self.now.names ≤ length bytes.now }
        requires record { index < record_count self.now }
        ensures { result ≡ name_place bytes.now self.now index }
    {
        read_word(bytes, self.publics as usize + 8 * index + 4)
    }
}

/// Whether a part runs from one place to another, in units of so many bytes.
fn is_part(unit: u32, first: u32, past: u32) -> bool
    requires { 0 < unit }
    ensures { IsTrue result ↔ IsPart unit first past }
{
    first <= past && (past - first) % unit == 0
}
