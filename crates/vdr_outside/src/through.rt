// A write to a medium with a sync behind it.
ghost use Rattle.std.specs.Prelude.{◌≡◌, length, OnOk};
ghost use Rattle.vdr_outside.specs.Disk.{InRange, Overwritten, content, over};
ghost use Rattle.vdr_outside.specs.Frames.{WritesThrough};
ghost use Rattle.vdr_outside.specs.Moments.{AtEachMoment};

use crate::{Fault, Media};

/// Writes the bytes and syncs the medium. At every moment a stop leaves the media as a stop before the call might have
/// left them, with any bytes in the range. After Ok it leaves this medium as it reads.
pub fn write_through<M: Media>(media: &mut M, m: u8, at: u64, bytes: &[u8]) -> Result<(), Fault>
    requires range { InRange (M.disk media.old).sizes m at (length bytes.now) }
    ensures reads { OnOk result (M.tells → content (M.disk media.new).reads m ≡ over (content (M.disk media.old).reads m) at bytes.now) }
    ensures moments { AtEachMoment (M.disk media.old) (M.disk media.new) (Overwritten m at (length bytes.now) (M.disk media.old).now) }
    ensures writes { WritesThrough M.Media m media.old media.new result }
{
    media.write(m, at, bytes)?;
    media.sync(m)?;
    Ok(())
}
