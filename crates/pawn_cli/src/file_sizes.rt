ghost use Rattle.std.specs.Prelude.{◌≡◌, ◌+◌, ◌≤◌, length};
ghost use Rattle.pawn_outside.specs.Said.{Said};
ghost use Rattle.amx_format.specs.File.{IsFile};
ghost use Rattle.amx_ops.specs.Writable.{cells_limit};
ghost use Rattle.pawn_cli.specs.Sizes.{sizes_of, sizes_text};

use amx_format::code_place;
use amx_ops::Amx;
use itoa::Buffer;
use pawn_outside::{Sink, SinkFault, say};

/// How many bytes the parts of a file and of its machine take, and how many publics and natives it
/// has.
#[derive(Clone, Copy, Debug)]
pub struct FileSizes {
    /// The header with its tables and names.
    pub header: u64,
    /// The code, once its cells are plain.
    pub code: u64,
    /// The data.
    pub store: u64,
    /// The room for heap and stack.
    pub room: u64,
    pub total: u64,
    pub publics: u64,
    pub natives: u64,
}

impl FileSizes {
    /// The sizes of a file with these bytes.
    pub fn of(bytes: &[u8], amx: &Amx) -> FileSizes
        requires file { IsFile bytes.now amx.now }
        requires memory { length amx.now.code + length amx.now.store + amx.now.room ≤ cells_limit }
        ensures { result ≡ sizes_of bytes.now amx.now }
    {
        let header = u64::from(code_place(bytes));
        let (code, store) = (amx.code.len() as u64, amx.store.len() as u64);
        let room = u64::from(amx.room);
        FileSizes {
            header,
            code: 4 * code,
            store: 4 * store,
            room: 4 * room,
            total: header + 4 * (code + store + room),
            publics: amx.publics.len() as u64,
            natives: amx.natives.len() as u64,
        }
    }

    /// Writes a line for each.
    pub fn say<S: Sink>(self, out: &mut S) -> Result<(), SinkFault>
        ensures { Said S.taken S.faults S.has_room out.old out.new (sizes_text self) result }
    {
        let (mut header, mut code) = (Buffer::new(), Buffer::new());
        let (mut store, mut room) = (Buffer::new(), Buffer::new());
        let (mut total, mut publics) = (Buffer::new(), Buffer::new());
        let mut natives = Buffer::new();
        say(
            out,
            &[
                b"header ",
                header.format(self.header).as_bytes(),
                b"\ncode ",
                code.format(self.code).as_bytes(),
                b"\ndata ",
                store.format(self.store).as_bytes(),
                b"\nroom ",
                room.format(self.room).as_bytes(),
                b"\ntotal ",
                total.format(self.total).as_bytes(),
                b"\npublics ",
                publics.format(self.publics).as_bytes(),
                b"\nnatives ",
                natives.format(self.natives).as_bytes(),
                b"\n",
            ],
        )
    }
}
