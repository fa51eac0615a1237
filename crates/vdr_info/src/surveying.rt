// What stands on a medium, by what opening reads of its segments.
ghost use Rattle.std.specs.Prelude.{◌≡◌, ◌≤◌, ◌+◌, ◌*◌, ℕ, List, Err, IfOk, option_map};
ghost use Rattle.vdr_terms.specs.Needs.{slots_in};
ghost use Rattle.vdr_terms.specs.Records.{last};
ghost use Rattle.vdr_outside.specs.Disk.{Unchanged, content};
ghost use Rattle.vdr_outside.specs.declared.fault.PartRefused.TheVariants.{Damaged};
ghost use Rattle.vdr_config.specs.Sizes.{sizes_of};
ghost use Rattle.vdr_segment.specs.Areas.{HasRoom};
ghost use Rattle.vdr_directory.specs.Costs.{ReadsAtMost, lacking};
ghost use Rattle.vdr_directory.specs.Entries.{Describe};
ghost use Rattle.vdr_directory.specs.Knowns.{AreInOrderBy};
ghost use Rattle.vdr_directory.specs.Opening.{AreKnown, HasFaultCause};
ghost use Rattle.vdr_directory.specs.Sequence.{Placed, all_records};
ghost use Rattle.vdr_directory.specs.Telling.{TellsBy};
ghost use Rattle.vdr_info.specs.Helds.{TellsFirst, TellsHeld, stand_of};

use crate::{Held, Stand};
use std::alloc::Global;
use vdr_config::Config;
use vdr_directory::{Directory, Entry, law_of_opening, read_segments};
use vdr_outside::{Media, PartRefused};
use vdr_segment::Area;
use vdr_terms::slot_count;

/// The slots of medium m, of so many bytes.
pub fn area_of(config: &Config, m: u8, size: u64) -> Area
    ensures medium { result.medium ≡ m }
    ensures segment { result.segment ≡ config.now.segment }
    ensures slots { result.slots ≡ slots_in (sizes_of config.now) size }
    ensures room { 32768 ≤ size → 32768 + result.slots * result.segment ≤ size }
{
    Area {
        medium: m,
        segment: config.segment,
        slots: slot_count(config.segment, size),
    }
}

// Where the records of these segments begin, of which the directory tells.
fn first_of(opened: &[Entry], directory: &Directory) -> Option<Stand>
    ensures { (count : ℕ) (known : List Placed) → Describe known opened.now → TellsBy count known directory.now → TellsFirst known result }
{
    let entry = opened.first()?;
    let known = directory.index().known(entry.slot)?;
    Some(Stand::of_segment(known.first, known.summary))
}

// Where the records end of which the directory tells.
fn last_of(directory: &Directory) -> Option<Stand>
    ensures { (count : ℕ) (known : List Placed) → TellsBy count known directory.now → result ≡ option_map stand_of (last (all_records known)) }
{
    let ending = directory.ending()?;
    Some(Stand {
        place: ending.place,
        utc: ending.utc,
        second: ending.tick / 1000,
    })
}

/// Reads of a medium's slots what opening reads: 64 bytes of each, and whole the segments whose header has no summary.
pub(crate) fn survey<M: Media>(
    alloc: Global,
    media: &mut M,
    area: Area,
) -> Result<Held, PartRefused>
    requires room { HasRoom area (M.disk media.old).sizes }
    ensures held { IfOk result (λ held. M.tells → (known : List Placed) → AreKnown area.segment area.slots (content (M.disk media.old).reads area.medium) known → AreInOrderBy known
        → TellsHeld area.medium area.segment area.slots known held) }
    ensures legal { (k offset : ℕ) → result ≡ Err (Damaged k offset) → M.tells → (known : List Placed) → AreKnown area.segment area.slots (content (M.disk media.old).reads area.medium) known
        → AreInOrderBy known → ⊥ }
    ensures unchanged { Unchanged (M.disk media.old) (M.disk media.new) }
    ensures counts { IfOk result (λ held. M.tells → (known : List Placed) → AreKnown area.segment area.slots (content (M.disk media.old).reads area.medium) known
        → ReadsAtMost area.medium (1 + 64 * area.slots + area.segment * lacking known) (M.bytes_read media.old) (M.bytes_read media.new)) }
    ensures cause { HasFaultCause area.medium (M.faults media.old) (M.faults media.new) result }
{
    law_of_opening();
    let Ok(mut buffer) = vec![in alloc; 0; area.segment as usize] else {
        return Err(PartRefused::NoMemory);
    };
    let (opened, _) = read_segments(alloc, media, area, &mut buffer)?;
    let Ok(directory) = Directory::of(alloc, area.slots, &opened) else {
        return Err(PartRefused::NoMemory);
    };
    Ok(Held {
        first: first_of(&opened, &directory),
        last: last_of(&directory),
        ..Held::empty(area, opened.len() as u64)
    })
}
