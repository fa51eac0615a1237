// Writing a slot, each gate behind a sync: a segment is begun, grows by a batch, gets its summary, and is closed.
//
// A new segment's first batch gate is written with its header, so that no batch of what stood there before is read
// as one of the new. A batch isn't copied: what was made is written from byte 1 on.
ghost use Rattle.std.specs.Prelude.{◌≡◌, ◌≢◌, ◌+◌, ◌<◌, ◌≤◌, [], ◌∷◌, ◌++◌, List, length, drop, slice_get, Option, None, Some, OnOk};
ghost use Rattle.vdr_terms.specs.Records.{Record as Entry};
ghost use Rattle.vdr_outside.specs.Disk.{InRange, Overwritten, content, over};
ghost use Rattle.vdr_outside.specs.Frames.{WritesThrough};
ghost use Rattle.vdr_outside.specs.Moments.{AtEachMoment, ChangesOnly, Settled};
ghost use Rattle.vdr_segment.specs.Gates.{closed_gate};
ghost use Rattle.vdr_segment.specs.Headers.{FitsSummary, new_header, summary_bytes};
ghost use Rattle.vdr_segment.specs.Batches.{IsBatch, batch_bytes};
ghost use Rattle.vdr_segment.specs.Segments.{Segment, end_of};
ghost use Rattle.vdr_terms.specs.Slots.{slots_from};
ghost use Rattle.vdr_segment.specs.Slots.{HoldsSlots, HoldsEither, SameFront, slots_closed, slots_begun, slots_with_batch, slots_with_summary};
ghost use Rattle.vdr_segment.specs.Areas.{HasRoom};
ghost use Rattle.vdr_segment.specs.Writes.{KeepsFront};

use crate::{
    Area, CLOSED_GATE, HEADER_SIZE, OPEN_GATE, SUMMARY_GATE, SUMMARY_SIZE, write_header,
    write_summary,
};
use vdr_bytes::put;
use vdr_entry::Summary;
use vdr_outside::{Fault, Media};

// Writes bytes where the slots stand, and syncs their medium. At every moment a stop leaves the media as a stop before the call
// might have left them, with any bytes in the range. Nothing before the slots is touched, also where it fails: that is more than
// `vdr_outside::write_through` says of what the medium reads as after an error.
fn write_synced<M: Media>(media: &mut M, area: Area, at: u64, bytes: &[u8]) -> Result<(), Fault>
    requires range { InRange (M.disk media.old).sizes area.medium at (length bytes.now) }
    requires behind { slots_from ≤ at }
    ensures reads { OnOk result (M.tells
        → content (M.disk media.new).reads area.medium ≡ over (content (M.disk media.old).reads area.medium) at bytes.now) }
    ensures moments { AtEachMoment (M.disk media.old) (M.disk media.new)
        (Overwritten area.medium at (length bytes.now) (M.disk media.old).now) }
    ensures front_reads { M.tells → SameFront (content (M.disk media.old).reads area.medium) (content (M.disk media.new).reads area.medium) }
    ensures writes { WritesThrough M.Media area.medium media.old media.new result }
{
    media.write(area.medium, at, bytes)?;
    media.sync(area.medium)?;
    Ok(())
}

/// Closes a slot, so that it holds no segment: writes its gate, byte 0, and syncs.
///
/// At every moment a stop leaves the slots as they were, or this one closed. That is promised only where the slot isn't
/// closed already: a torn write may open a gate that was closed. Nothing before the slots is touched, also where it fails.
pub fn close_slot<M: Media>(media: &mut M, area: Area, slot: u32) -> Result<(), Fault>
    requires room { HasRoom area (M.disk media.old).sizes }
    requires within { slot < area.slots }
    ensures moments { (slots : List (Option Segment)) → Settled area.medium (HoldsSlots area.segment slots) (M.disk media.old) → slice_get slots slot ≢ Some None
        → ChangesOnly area.medium (HoldsEither area.segment slots (slots_closed slots slot)) (M.disk media.old) (M.disk media.new) }
    ensures settled { (slots : List (Option Segment)) → Settled area.medium (HoldsSlots area.segment slots) (M.disk media.old)
        → OnOk result (Settled area.medium (HoldsSlots area.segment (slots_closed slots slot)) (M.disk media.new)) }
    ensures front { KeepsFront area.medium (M.disk media.old) (M.disk media.new) }
    ensures writes { WritesThrough M.Media area.medium media.old media.new result }
{
    write_synced(media, area, area.place_of(slot), &[CLOSED_GATE])
}

// What stands behind the gate of a new segment: its header, and the closed gate of its first batch.
fn behind_gate(seq: u64, first: u64) -> [u8; HEADER_SIZE]
    ensures { result ≡ drop 1 (new_header seq first) ++ closed_gate ∷ [] }
{
    let mut header = [0; HEADER_SIZE];
    write_header(seq, first, &mut header);
    let mut bytes = [CLOSED_GATE; HEADER_SIZE];
    put(&mut bytes, 0, &header[1..]);
    bytes
}

/// Begins a segment in a closed slot, with this sequence number and this place of its first record, and no batch.
/// Writes bytes 1 to 64, which are the header behind its gate and the closed gate of the first batch, and syncs; then
/// opens the segment's gate, byte 0, and syncs.
///
/// At every moment a stop leaves the slots as they were, or with the new segment. Nothing before the slots is touched, also
/// where it fails.
pub fn begin_segment<M: Media>(
    media: &mut M,
    area: Area,
    slot: u32,
    seq: u64,
    first: u64,
) -> Result<(), Fault>
    requires room { HasRoom area (M.disk media.old).sizes }
    requires within { slot < area.slots }
    ensures moments { (slots : List (Option Segment)) → Settled area.medium (HoldsSlots area.segment slots) (M.disk media.old) → slice_get slots slot ≡ Some None
        → ChangesOnly area.medium (HoldsEither area.segment slots (slots_begun slots slot seq first)) (M.disk media.old) (M.disk media.new) }
    ensures settled { (slots : List (Option Segment)) → Settled area.medium (HoldsSlots area.segment slots) (M.disk media.old) → slice_get slots slot ≡ Some None
        → OnOk result (Settled area.medium (HoldsSlots area.segment (slots_begun slots slot seq first)) (M.disk media.new)) }
    ensures front { KeepsFront area.medium (M.disk media.old) (M.disk media.new) }
    ensures writes { WritesThrough M.Media area.medium media.old media.new result }
{
    let place = area.place_of(slot);
    write_synced(media, area, place + 1, &behind_gate(seq, first))?;
    write_synced(media, area, place, &[OPEN_GATE])
}

/// Appends a batch to a segment at `at`, where its last batch ends, in bytes from the slot's beginning. `batch` is what
/// `crate::write_batch` made: the batch, its gate open, and a closed gate behind it. Writes all of it but the first
/// byte and syncs; then writes that one, the batch's gate, and syncs.
///
/// At every moment a stop leaves the slots as they were, or with the batch behind the others of its segment. Nothing before
/// the slots is touched, also where it fails.
pub fn append_batch<M: Media>(
    media: &mut M,
    area: Area,
    slot: u32,
    at: usize,
    batch: &[u8],
) -> Result<(), Fault>
    requires room { HasRoom area (M.disk media.old).sizes }
    requires within { slot < area.slots }
    requires fits { at + length batch.now ≤ area.segment }
    requires some { 0 < length batch.now }
    ensures moments { (slots : List (Option Segment)) (s : Segment) (records : List Entry) → Settled area.medium (HoldsSlots area.segment slots) (M.disk media.old) → slice_get slots slot ≡ Some (Some s)
        → end_of s ≡ at → batch.now ≡ batch_bytes records ++ closed_gate ∷ [] → IsBatch records
        → ChangesOnly area.medium (HoldsEither area.segment slots (slots_with_batch slots slot s records)) (M.disk media.old) (M.disk media.new) }
    ensures settled { (slots : List (Option Segment)) (s : Segment) (records : List Entry) → Settled area.medium (HoldsSlots area.segment slots) (M.disk media.old) → slice_get slots slot ≡ Some (Some s)
        → end_of s ≡ at → batch.now ≡ batch_bytes records ++ closed_gate ∷ [] → IsBatch records
        → OnOk result (Settled area.medium (HoldsSlots area.segment (slots_with_batch slots slot s records)) (M.disk media.new)) }
    ensures front { KeepsFront area.medium (M.disk media.old) (M.disk media.new) }
    ensures writes { WritesThrough M.Media area.medium media.old media.new result }
{
    let gate = area.place_of(slot) + at as u64;
    write_synced(media, area, gate + 1, &batch[1..])?;
    write_synced(media, area, gate, &batch[..1])
}

// The bytes of a summary, as a header has them.
fn bytes_of(summary: Summary) -> [u8; SUMMARY_SIZE]
    ensures bytes { result ≡ summary_bytes summary }
    ensures fits { FitsSummary summary }
{
    let mut bytes = [0; SUMMARY_SIZE];
    write_summary(&summary, &mut bytes);
    bytes
}

/// Writes the summary of a segment that has none. Writes bytes 18 to 61 of its header and syncs; then opens the
/// summary's gate, byte 17, and syncs.
///
/// At every moment a stop leaves the slots as they were, or with the summary. That is promised only where the segment
/// has no summary yet: behind an open gate a torn write would be read. Nothing before the slots is touched, also where
/// it fails.
pub fn summarize<M: Media>(
    media: &mut M,
    area: Area,
    slot: u32,
    summary: Summary,
) -> Result<(), Fault>
    requires room { HasRoom area (M.disk media.old).sizes }
    requires within { slot < area.slots }
    ensures moments { (slots : List (Option Segment)) (s : Segment) → Settled area.medium (HoldsSlots area.segment slots) (M.disk media.old) → slice_get slots slot ≡ Some (Some s)
        → s.header.summary ≡ None
        → ChangesOnly area.medium (HoldsEither area.segment slots (slots_with_summary slots slot s summary)) (M.disk media.old) (M.disk media.new) }
    ensures settled { (slots : List (Option Segment)) (s : Segment) → Settled area.medium (HoldsSlots area.segment slots) (M.disk media.old) → slice_get slots slot ≡ Some (Some s)
        → s.header.summary ≡ None
        → OnOk result (Settled area.medium (HoldsSlots area.segment (slots_with_summary slots slot s summary)) (M.disk media.new)) }
    ensures front { KeepsFront area.medium (M.disk media.old) (M.disk media.new) }
    ensures writes { WritesThrough M.Media area.medium media.old media.new result }
{
    let gate = area.place_of(slot) + SUMMARY_GATE as u64;
    write_synced(media, area, gate + 1, &bytes_of(summary))?;
    write_synced(media, area, gate, &[OPEN_GATE])
}
