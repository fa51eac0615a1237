// A piece of a text in memory that was taken once.
//
// A part of the text is never cut. So a piece has room for the longest part behind so many bytes that it is sent, and for
// a last line behind that.
ghost use Rattle.std.specs.Prelude.{◌≡◌, ◌≤◌, ◌<◌, ◌+◌, ◌++◌, ℕ, List, [], Some, length, true};

use arrayvec::ArrayVec;
use vdr_outside::{Failed, Sink};

/// How many bytes a piece holds at most.
const ROOM: usize = 262_144;

/// From so many bytes on a piece is sent.
pub const FULL: usize = 65_536;

/// How many bytes a part of the text has at most that is put into a piece which is not full. 65 bytes are left behind it.
pub const LONGEST_PART: usize = 196_544;

/// A piece of a text, of at most 262,144 bytes. A write fails only where it has as many: then `refused` is above 0.
#[derive(Drop)]
pub struct Piece {
    bytes: ArrayVec<u8, ROOM>,
    refused: u64,
    ghost room: { length bytes.items ≤ 262_144 },
    ghost full: { 0 < refused → length bytes.items ≡ 262_144 },
}

impl Piece {
    /// An empty piece.
    pub fn new() -> Piece
        ensures { result.bytes.items ≡ [] }
    {
        Piece {
            bytes: ArrayVec::new(),
            refused: 0,
        }
    }

    /// Makes it empty.
    pub fn clear(&mut self)
        ensures { self.new.bytes.items ≡ [] }
    {
        self.refused = 0;
        self.bytes.clear();
    }

    /// What it has.
    pub fn as_slice(&self) -> &[u8]
        ensures { result.now ≡ self.now.bytes.items }
    {
        self.bytes.as_slice()
    }

    /// How many bytes it has, 0 to 262,144.
    pub fn len(&self) -> usize
        ensures value { result ≡ length self.now.bytes.items }
        ensures room { result ≤ 262_144 }
    {
        self.bytes.len()
    }

    /// Adds bytes for which there is room.
    pub fn push(&mut self, bytes: &[u8])
        requires { length self.old.bytes.items + length bytes.now ≤ 262_144 }
        ensures { self.new.bytes.items ≡ self.old.bytes.items ++ bytes.now }
    {
        let _ = self.bytes.try_extend_from_slice(bytes);
    }
}

impl Sink for Piece {
    ghost taken = { λ s. Some s.bytes.items };

    ghost faults = { λ s. s.refused };

    fn write(&mut self, bytes: &[u8]) -> Result<usize, Failed> {
        let count = bytes.len().min(self.bytes.remaining_capacity());
        if count < bytes.len() && count == 0 {
            self.refused = self.refused.saturating_add(1);
            return Err(Failed);
        }
        let _ = self.bytes.try_extend_from_slice(&bytes[..count]);
        Ok(count)
    }
}
