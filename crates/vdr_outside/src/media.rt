// The media, as a trait: read, written and synced, with the disk model of what a stop leaves.
ghost use Rattle.std.specs.Prelude.{◌≡◌, ◌+◌, ℕ, List, length, get_or, slice_range, OnOk, OnErr};
ghost use Rattle.vdr_outside.specs.Causes.{HasCauseOn, counted};
ghost use Rattle.vdr_outside.specs.Disk.{Disk, InRange, Elapses, Rises, Ticks, Tears, Narrows, Durable, Overwritten, Unchanged, content, written};

use crate::Failed;

/// All media of a recorder, each of a fixed size. They have one clock, and a stop strikes them all at one moment.
pub trait Media {
    /// A fact where the object tells what its media read as.
    ghost tells: { Type 0 };

    /// A fact where the object tells what a stop may leave.
    ghost tells_images: { Type 0 };

    /// What the media read as, what a stop may leave of them, and their clock.
    ghost disk: { Self → Disk tells tells_images };

    /// How often a call on each medium failed. No such count falls. One that stands at the greatest u64 counts as risen.
    ghost faults: { Self → List ℕ };

    /// How many bytes were read of each medium. Such a number stays at the greatest u64 once it is there.
    ghost bytes_read: { Self → List ℕ };

    /// How many media there are.
    fn count(&self) -> u8
        ensures { result ≡ length (disk self.now).sizes };

    /// The size of medium m in bytes, 0 where there is no such medium. It never changes.
    fn size(&self, m: u8) -> u64
        ensures { result ≡ get_or (disk self.now).sizes m 0 };

    /// Reads the bytes of medium m from `at` on. Where it fails, all of them count as read.
    fn read(&mut self, m: u8, at: u64, into: &mut [u8]) -> Result<(), Failed>
        requires range { InRange (disk self.old).sizes m at (length into.old) }
        ensures bytes { OnOk result (tells → into.new ≡ slice_range (content (disk self.old).reads m) at (at + length into.old)) }
        ensures unchanged { Unchanged (disk self.old) (disk self.new) }
        ensures counts { bytes_read self.new ≡ counted (bytes_read self.old) m (length into.old) }
        ensures cause { HasCauseOn m (faults self.old) (faults self.new) result };

    /// Writes the bytes to medium m from `at` on. Until a sync of this medium a stop may leave any bytes in their range.
    /// Where it fails, the range may read as any bytes too.
    fn write(&mut self, m: u8, at: u64, bytes: &[u8]) -> Result<(), Failed>
        requires range { InRange (disk self.old).sizes m at (length bytes.now) }
        ensures reads { OnOk result (tells → (disk self.new).reads ≡ written (disk self.old).reads m at bytes.now) }
        ensures torn { OnErr result (tells → Overwritten m at (length bytes.now) (λ image. image ≡ (disk self.old).reads) (disk self.new).reads) }
        ensures images { Tears m at (length bytes.now) (disk self.old) (disk self.new) }
        ensures time { Elapses (disk self.old) (disk self.new) }
        ensures rises { Rises (disk self.old) (disk self.new) }
        ensures ticks { Ticks (disk self.old) (disk self.new) result }
        ensures sizes { (disk self.new).sizes ≡ (disk self.old).sizes }
        ensures counts { bytes_read self.new ≡ bytes_read self.old }
        ensures cause { HasCauseOn m (faults self.old) (faults self.new) result };

    /// Syncs medium m. Where it succeeds, a stop leaves this medium as it reads. Of the others nothing changes.
    fn sync(&mut self, m: u8) -> Result<(), Failed>
        requires range { InRange (disk self.old).sizes m 0 0 }
        ensures durable { OnOk result (Durable m (disk self.new)) }
        ensures reads { tells → (disk self.new).reads ≡ (disk self.old).reads }
        ensures images { Narrows (disk self.old) (disk self.new) }
        ensures time { Elapses (disk self.old) (disk self.new) }
        ensures rises { Rises (disk self.old) (disk self.new) }
        ensures ticks { Ticks (disk self.old) (disk self.new) result }
        ensures sizes { (disk self.new).sizes ≡ (disk self.old).sizes }
        ensures counts { bytes_read self.new ≡ bytes_read self.old }
        ensures cause { HasCauseOn m (faults self.old) (faults self.new) result };
}
