//! The content of a file, made piece by piece.

use std::alloc::Global;
use std::mem;

/// The content so far, and the piece that was begun last.
#[derive(Drop)]
pub struct Content {
    alloc: Global,
    done: Vec<u8>,
    piece: Vec<u8>,
}

impl Content {
    pub fn new(alloc: Global) -> Content {
        Content {
            alloc,
            done: Vec::new(alloc),
            piece: Vec::new(alloc),
        }
    }

    /// Puts bytes on the piece.
    pub fn add(&mut self, bytes: &[u8]) -> anyhow::Result<()> {
        self.piece.extend_from_slice(bytes)?;
        Ok(())
    }

    /// Puts bytes, two digits each, on the piece.
    pub fn add_hex(&mut self, text: &str) -> anyhow::Result<()> {
        for pair in text.as_bytes().chunks_exact(2) {
            self.piece.push(byte_of(pair))?;
        }
        Ok(())
    }

    /// Has the piece stand so many times.
    pub fn repeat(&mut self, count: u32) -> anyhow::Result<()> {
        let one = mem::replace(&mut self.piece, Vec::new(self.alloc));
        for _ in 0..count {
            self.piece.extend_from_slice(&one)?;
        }
        Ok(())
    }

    /// Ends the piece: what is put behind it is another.
    pub fn end_piece(&mut self) -> anyhow::Result<()> {
        self.done.extend_from_slice(&self.piece)?;
        self.piece.clear();
        Ok(())
    }

    /// Changes the bytes of the piece at a place, as far as it has some there.
    pub fn set(&mut self, place: usize, text: &str) {
        for (byte, pair) in self
            .piece
            .iter_mut()
            .skip(place)
            .zip(text.as_bytes().chunks_exact(2))
        {
            *byte = byte_of(pair);
        }
    }

    /// Keeps so many bytes of the piece.
    pub fn cut(&mut self, length: usize) {
        self.piece.truncate(length);
    }

    /// The whole content, which begins anew.
    pub fn take(&mut self) -> anyhow::Result<Vec<u8>> {
        self.end_piece()?;
        Ok(mem::replace(&mut self.done, Vec::new(self.alloc)))
    }
}

/// The byte that two digits spell; what is no digit counts as 0.
fn byte_of(pair: &[u8]) -> u8 {
    pair.iter().fold(
        0,
        |byte: u8, digit| byte.wrapping_mul(16).wrapping_add(value_of(*digit)),
    )
}

fn value_of(digit: u8) -> u8 {
    match digit {
        b'0'..=b'9' => digit - b'0',
        b'a'..=b'f' => digit - b'a' + 10,
        _ => 0,
    }
}
