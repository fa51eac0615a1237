// Comparing both media of one recorder.
ghost use Rattle.std.specs.Prelude.{◌≡◌, ◌≤◌, length};
ghost use Rattle.vdr_outside.specs.Disk.{Unchanged};
ghost use Rattle.vdr_compare.specs.Media.{ComparesMedia, HasMediaCause};

use crate::comparing::compare;
use crate::opening::read_both;
use crate::{CompareRefused, Verdict};
use std::alloc::Global;
use vdr_outside::{Media, PartRefused, Sink};

/// Why two media are not compared to the end.
#[derive(Clone, Copy, Drop)]
pub enum MediaRefused {
    /// A medium can't be opened alone, or not be read to its end.
    Opening(PartRefused),
    /// A read or a write failed meanwhile.
    Comparing(CompareRefused),
}

impl From<PartRefused> for MediaRefused {
    ghost use Rattle.std.specs.Prelude.{◌≡◌};
    ghost use Rattle.vdr_compare.specs.declared.media.MediaRefused.TheVariants.{Opening};

    ghost from_gives = { λ why refused. refused ≡ Opening why };

    fn from(why: PartRefused) -> MediaRefused {
        MediaRefused::Opening(why)
    }
}

/// Opens the capsule and the long-term medium, each alone and whatever their bytes are, and prints where each is damaged, where they differ
/// and what one of them lacks of its window. Answers the first line but the last. Both are read twice, and nothing is written to any medium.
/// Takes the memory of both openings, of the texts of their configurations, and of what is found of each.
///
/// Lines: `differs configuration`; `damaged MEDIUM OFFSET`, in bytes of the medium, of the capsule and then of the long-term medium, by rising
/// offset; by rising place `differs PLACE` and `lacks MEDIUM A B`, places A to B, both included; and in the end `same A B`, the least and the
/// greatest place of records that are the same, `same - -` where none is.
///
/// `Opening`: a medium can't be opened alone, the capsule first, or there is no memory, or the first reading failed, and nothing is printed.
/// `Comparing`: a read or a write failed meanwhile, and a front of the text is printed.
pub fn compare_media<M: Media, O: Sink>(
    alloc: Global,
    media: &mut M,
    out: &mut O,
) -> Result<Verdict, MediaRefused>
    requires two { 2 ≤ length (M.disk media.old).sizes }
    ensures compares { M.tells → ComparesMedia (M.disk media.old).reads (O.taken out.old) (O.taken out.new) result }
    ensures unchanged { Unchanged (M.disk media.old) (M.disk media.new) }
    ensures cause { HasMediaCause (M.faults media.old) (M.faults media.new) (O.faults out.old) (O.faults out.new) result }
{
    let (capsule, longterm, alike) = read_both(alloc, media)?;
    match compare(capsule, longterm, alike, media, out) {
        Ok(verdict) => Ok(verdict),
        Err(why) => Err(MediaRefused::Comparing(why)),
    }
}
