// The segments that lack a summary get it.
ghost use Rattle.std.specs.Prelude.{◌≡◌, [], List, OnOk};
ghost use Rattle.vdr_outside.specs.Causes.{HasCauseOn};
ghost use Rattle.vdr_outside.specs.Disk.{SameBut};
ghost use Rattle.vdr_outside.specs.Moments.{ChangesOnly};
ghost use Rattle.vdr_segment.specs.Areas.{HasRoom};
ghost use Rattle.vdr_segment.specs.Writes.{KeepsFront};
ghost use Rattle.vdr_directory.specs.Sequence.{Placed};
ghost use Rattle.vdr_directory.specs.Directories.{count_of};
ghost use Rattle.vdr_ring.specs.Rings.{HasMedium, Reads};
ghost use Rattle.vdr_ring.specs.Bringing.{HasBroughtUp, HoldsAlike, KeepsBroughtUp, StandsAlike};

use crate::Ring;
use vdr_directory::Directory;
use vdr_outside::{Fault, Media};
use vdr_segment::{Area, summarize};

// Writes the summaries of the segments in these slots, one after another.
fn summarize_all<M: Media>(
    media: &mut M,
    area: Area,
    directory: &Directory,
    bare: &[u32],
) -> Result<(), Fault>
    requires room { HasRoom area (M.disk media.old).sizes }
    requires all_slots { count_of directory.now ≡ area.slots }
    ensures brought { (placed : List Placed) → M.tells
        → StandsAlike area.medium area.segment area.slots placed directory.now bare.now (M.disk media.old)
        → ChangesOnly area.medium (HoldsAlike area.segment area.slots placed) (M.disk media.old) (M.disk media.new)
        × OnOk result (StandsAlike area.medium area.segment area.slots placed directory.now [] (M.disk media.new)) }
    ensures front { KeepsFront area.medium (M.disk media.old) (M.disk media.new) }
    ensures others { M.tells → SameBut area.medium (M.disk media.old).reads (M.disk media.new).reads }
    ensures sizes { (M.disk media.new).sizes ≡ (M.disk media.old).sizes }
    ensures counts { M.bytes_read media.new ≡ M.bytes_read media.old }
    ensures cause { HasCauseOn area.medium (M.faults media.old) (M.faults media.new) result }
{
    for slot in bare {
        if let Some(known) = directory.index().known(*slot) {
            summarize(media, area, *slot, known.summary)?;
        }
    }
    Ok(())
}

impl Ring {
    /// Writes the summary of each segment that opening found to lack one, the oldest first. The newest gets none, nor
    /// the one before it where the newest has no records. Where none lacks it, nothing is called. Takes no memory.
    ///
    /// At every moment a stop leaves the same segments with the same batches in a legal order, some with a summary that
    /// they had not. Nothing before the slots is touched.
    ///
    /// `Fault`: a write or a sync failed, and the count of faults of this medium rose. The ring is then to be opened
    /// again before it is used.
    pub fn bring_up<M: Media>(&mut self, media: &mut M) -> Result<(), Fault>
        requires room { HasMedium self.old (M.disk media.old).sizes }
        ensures brought { (placed : List Placed) → M.tells → Reads self.old placed (M.disk media.old)
            → ChangesOnly self.old.medium (HoldsAlike self.old.segment self.old.slots placed) (M.disk media.old) (M.disk media.new)
            × OnOk result (HasBroughtUp placed self.old self.new (M.disk media.new)) }
        ensures keeps { KeepsBroughtUp M.Media self.old self.new media.old media.new result }
        ensures others { M.tells → SameBut self.old.medium (M.disk media.old).reads (M.disk media.new).reads }
        ensures sizes { (M.disk media.new).sizes ≡ (M.disk media.old).sizes }
        ensures counts { M.bytes_read media.new ≡ M.bytes_read media.old }
        ensures cause { HasCauseOn self.old.medium (M.faults media.old) (M.faults media.new) result }
    {
        if self.bare.is_empty() {
            return Ok(());
        }
        self.loaded = None;
        summarize_all(media, self.area, &self.directory, &self.bare)?;
        self.bare.clear();
        Ok(())
    }
}
