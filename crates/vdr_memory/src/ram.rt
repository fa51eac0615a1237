// Media in memory that keep their contents alone and never fail.
//
// No count is kept: none of its calls fails.
ghost use Rattle.std.specs.Prelude.{◌≡◌, ◌+◌, ◌≤◌, length, map, slice_range, IsOk};
ghost use Rattle.vdr_outside.specs.Disk.{InRange, content, written};
ghost use Rattle.vdr_memory.specs.Contents.{contents};

use crate::contents::{bytes_of, overwrite_at, read_range};
use std::marker::Model;
use vdr_outside::{Failed, Media};

/// Media that keep their contents alone. They never fail, and they do not tell what a stop may leave.
#[derive(Drop)]
pub struct RamMedia {
    media: Vec<Vec<u8>>,
}

impl Model for RamMedia {
    ghost use Rattle.std.specs.Prelude.{◌≤◌, length};
    ghost use Rattle.vdr_outside.specs.Disk.{Image};
    ghost use Rattle.vdr_memory.specs.Contents.{contents};

    ghost Value = { Image };

    ghost view = { λ s. contents s.media.items };

    ghost invariant = { λ s. length s.media.items ≤ 3 };
}

impl RamMedia {
    /// Media with these contents, at most three.
    pub fn new(media: Vec<Vec<u8>>) -> RamMedia
        requires { length media.items ≤ 3 }
        ensures { result ≡ contents media.items }
    {
        RamMedia { media }
    }

    /// What medium m reads as, empty where there is no such medium.
    pub fn contents(&self, m: u8) -> &[u8]
        ensures { result.now ≡ content self.now m }
    {
        bytes_of(&self.media, m)
    }
}

impl Media for RamMedia {
    ghost use Rattle.std.specs.Prelude.{⊤, []};
    ghost use Rattle.vdr_outside.specs.Untold.{contents_alone};

    ghost tells = { ⊤ };

    ghost tells_images = { ⊥ };

    ghost disk = { λ s. contents_alone s };

    // No count is kept: none of them would rise, or be asked for.
    ghost faults = { λ _. [] };

    ghost bytes_read = { λ _. [] };

    fn count(&self) -> u8 {
        self.media.len() as u8
    }

    fn size(&self, m: u8) -> u64 {
        bytes_of(&self.media, m).len() as u64
    }

    /// Reads the bytes. It never fails.
    fn read(&mut self, m: u8, at: u64, into: &mut [u8]) -> Result<(), Failed>
        requires range { InRange (map length self.old) m at (length into.old) }
        ensures succeeds { IsOk result }
        ensures bytes { into.new ≡ slice_range (content self.old m) at (at + length into.old) }
        ensures same { self.new ≡ self.old }
    {
        read_range(&self.media, m, at, into);
        Ok(())
    }

    /// Writes the bytes. It never fails.
    fn write(&mut self, m: u8, at: u64, bytes: &[u8]) -> Result<(), Failed>
        requires range { InRange (map length self.old) m at (length bytes.now) }
        ensures succeeds { IsOk result }
        ensures wrote { self.new ≡ written self.old m at bytes.now }
        ensures sizes { map length self.new ≡ map length self.old }
    {
        overwrite_at(&mut self.media, m, at, bytes);
        Ok(())
    }

    /// Does nothing. It never fails.
    fn sync(&mut self, _m: u8) -> Result<(), Failed>
        requires range { InRange (map length self.old) _m 0 0 }
        ensures succeeds { IsOk result }
        ensures same { self.new ≡ self.old }
    {
        Ok(())
    }
}
