// Opening one medium as a ring.
ghost use Rattle.std.specs.Prelude.{◌≡◌, ◌+◌, ◌*◌, ◌<◌, ◌≤◌, ℕ, length, get_or, IfOk};
ghost use Rattle.vdr_terms.specs.Needs.{Fits, slots_in};
ghost use Rattle.vdr_outside.specs.Disk.{Unchanged, content};
ghost use Rattle.vdr_outside.specs.declared.fault.PartRefused.TheVariants.{Damaged};
ghost use Rattle.vdr_config.specs.Sizes.{sizes_of};
ghost use Rattle.vdr_directory.specs.Opening.{HasFaultCause, Refuses};
ghost use Rattle.vdr_ring.specs.Openings.{OpensRing};

use crate::Ring;
use std::alloc::Global;
use vdr_config::Config;
use vdr_directory::{Directory, bare_slots, read_segments};
use vdr_outside::{Media, PartRefused};
use vdr_segment::Area;
use vdr_terms::slot_count;

// The slots of medium m, of so many bytes.
fn area_of(config: &Config, m: u8, size: u64) -> Area
    ensures medium { result.medium ≡ m }
    ensures segment { result.segment ≡ config.now.segment }
    ensures slots { result.slots ≡ slots_in (sizes_of config.now) size }
    ensures room { 32768 ≤ size → 32768 + result.slots * result.segment ≤ size }
{
    Area {
        medium: m,
        segment: config.segment,
        slots: slot_count(config.segment, size),
    }
}

impl Ring {
    /// Reads the headers of medium m, and whole the segments whose header has no summary, and opens it as a ring.
    /// Of the newest it reads the first gate, and the rest where that is open. So the slot that has the last record is
    /// the one read last. It writes nothing. Segments that are to get a summary get it by `bring_up`. The batches of a
    /// segment that has a summary are not read, so they may be broken, or not agree with it. Such a segment is judged
    /// when it is read.
    ///
    /// `Damaged` names the medium and the first part of it that is not legal, by where that begins, in bytes. First come
    /// the slots, in their order, by their headers; then, in order of sequence number, the segments without a summary, by
    /// their batches. Then come all segments in that order, by how each stands among the others, as far as is known of
    /// it (this project's profile). `NoMemory`: there was no room for the directory or one segment. `Fault`: a read
    /// failed, and the count of faults of this medium rose.
    pub fn open<M: Media>(
        alloc: Global,
        media: &mut M,
        m: u8,
        config: &Config,
    ) -> Result<Ring, PartRefused>
        requires medium { m < length (M.disk media.old).sizes }
        requires fits { Fits (sizes_of config.now) m (get_or (M.disk media.old).sizes m 0) }
        ensures opened { IfOk result (OpensRing M.Media config.now m media.old media.new) }
        ensures damaged { (k offset : ℕ) → result ≡ Err (Damaged k offset) → (k ≡ m)
            × (M.tells → Refuses config.now.segment (slots_in (sizes_of config.now) (get_or (M.disk media.old).sizes m 0)) (content (M.disk media.old).reads m) offset) }
        ensures unchanged { Unchanged (M.disk media.old) (M.disk media.new) }
        ensures cause { HasFaultCause m (M.faults media.old) (M.faults media.new) result }
    {
        let area = area_of(config, m, media.size(m));
        let Ok(mut buffer) = vec![in alloc; 0; area.segment as usize] else {
            return Err(PartRefused::NoMemory);
        };
        let (opened, loaded) = read_segments(alloc, media, area, &mut buffer)?;
        let Ok(directory) = Directory::of(alloc, area.slots, &opened) else {
            return Err(PartRefused::NoMemory);
        };
        let Ok(bare) = bare_slots(alloc, &opened) else {
            return Err(PartRefused::NoMemory);
        };
        Ok(Ring {
            area,
            seconds: config.window(m),
            directory,
            buffer,
            loaded,
            bare,
        })
    }
}
