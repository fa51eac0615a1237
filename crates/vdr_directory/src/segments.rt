// Reading and judging the segments of a medium by their headers.
ghost use Rattle.std.specs.Prelude.{◌≡◌, ℕ, List, length, IfOk, Some};
ghost use Rattle.vdr_outside.specs.Disk.{Unchanged, content};
ghost use Rattle.vdr_outside.specs.declared.fault.PartRefused.TheVariants.{Damaged};
ghost use Rattle.vdr_segment.specs.Areas.{HasRoom};
ghost use Rattle.vdr_directory.specs.Opening.{HasFaultCause, Refuses, slot_bytes};
ghost use Rattle.vdr_directory.specs.Sequence.{Placed};
ghost use Rattle.vdr_directory.specs.Order.{AreInOrder};
ghost use Rattle.vdr_directory.specs.Entries.{Describe};
ghost use Rattle.vdr_directory.specs.Holds.{HoldsPlaced};
ghost use Rattle.vdr_directory.specs.Costs.{ReadsAtMost, bytes_to_open};
ghost use Rattle.vdr_directory.specs.Fronts.{AreSlots, Finds, HoldsLatest};

use crate::entry::Entry;
use crate::fronts::read_fronts;
use crate::order::first_break;
use crate::surveys::{sort_by_seq, survey_all};
use std::alloc::Global;
use vdr_outside::{Media, PartRefused};
use vdr_segment::Area;

/// Reads and judges a medium's segments by their headers, and answers the open ones in order of sequence number, and
/// the slot whose bytes the buffer holds then. Of a segment whose header has no summary the batches are read and
/// surveyed. Those of one that has a summary are not, so they may be broken, or not agree with it. The buffer has room
/// for a segment. It writes nothing. It reads 64 bytes of each slot, and whole the segments without a summary; of the
/// newest the first gate, and the rest where that is open.
///
/// `Damaged` names the medium and the first part of it that is not legal, by where that begins, in bytes. First come
/// the slots, in their order, by their headers; then, in order of sequence number, the segments without a summary, by
/// their batches. Then come all segments in that order, by how each stands among the others, as far as is known of
/// it (this project's profile). `NoMemory`: there was no room for what was found. `Fault`: a read failed, and the
/// count of faults of this medium rose.
pub fn read_segments<M: Media>(
    alloc: Global,
    media: &mut M,
    area: Area,
    buffer: &mut [u8],
) -> Result<(Vec<Entry>, Option<u32>), PartRefused>
    requires room { HasRoom area (M.disk media.old).sizes }
    requires whole { length buffer.old ≡ area.segment }
    ensures slots { IfOk result (λ x. AreSlots area.slots x.0.items) }
    ensures found { IfOk result (λ x. M.tells → (placed : List Placed) → HoldsPlaced area.segment area.slots placed (content (M.disk media.old).reads area.medium)
        → AreInOrder placed → Describe placed x.0.items) }
    ensures parts { IfOk result (λ x. M.tells → Finds area.segment area.slots (content (M.disk media.old).reads area.medium) x.0.items) }
    ensures held { IfOk result (λ x. M.tells → (slot : ℕ) → x.1 ≡ Some slot
        → buffer.new ≡ slot_bytes area.segment slot (content (M.disk media.old).reads area.medium)) }
    ensures damaged { (k offset : ℕ) → result ≡ Err (Damaged k offset) → (k ≡ area.medium)
        × (M.tells → Refuses area.segment area.slots (content (M.disk media.old).reads area.medium) offset) }
    ensures unchanged { Unchanged (M.disk media.old) (M.disk media.new) }
    ensures latest { IfOk result (λ x. M.tells → HoldsLatest x.0.items x.1) }
    ensures counts { IfOk result (λ x. ReadsAtMost area.medium (bytes_to_open area.segment area.slots x.0.items) (M.bytes_read media.old) (M.bytes_read media.new)) }
    ensures cause { HasFaultCause area.medium (M.faults media.old) (M.faults media.new) result }
{
    let mut opened = read_fronts(alloc, media, area)?;
    sort_by_seq(&mut opened);
    let held = survey_all(media, area, &mut opened, buffer)?;
    if let Some(index) = first_break(&opened) {
        return Err(PartRefused::Damaged {
            medium: area.medium,
            offset: area.place_of(opened[index].slot),
        });
    }
    Ok((opened, held))
}
