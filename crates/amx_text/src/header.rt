/// What the first line says: the flags, the version, so many cells of code, of data and of room,
/// and main.
#[derive(Clone, Copy, Debug)]
pub struct Header {
    pub flags: u16,
    pub version: u8,
    pub code: u32,
    pub store: u32,
    pub room: u32,
    pub entry: i32,
}
