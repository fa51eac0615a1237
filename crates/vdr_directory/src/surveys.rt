// The open segments in order of sequence number, each surveyed.
ghost use Rattle.std.specs.Prelude.{◌≡◌, ◌<◌, ◌+◌, ◌*◌, ◌↔◌, ℕ, List, [], IfOk, OnOk, IsTrue, All, Some, None, cond, true, false, drop, length, map};
ghost use Rattle.vdr_terms.specs.Records.{Record};
ghost use Rattle.vdr_segment.specs.Segments.{AreBatches};
ghost use Rattle.vdr_directory.specs.Indexed.{extent_by};
ghost use Rattle.std.specs.List.Sorted.{IsPermutation};
ghost use Rattle.vdr_outside.specs.Causes.{counted};
ghost use Rattle.vdr_outside.specs.Disk.{Unchanged, content};
ghost use Rattle.vdr_outside.specs.declared.fault.PartRefused.TheVariants.{Damaged};
ghost use Rattle.vdr_segment.specs.Areas.{HasRoom};
ghost use Rattle.vdr_directory.specs.Opening.{HasFaultCause, slot_bytes};
ghost use Rattle.vdr_directory.specs.Costs.{ReadsAtMost, one_if_none, unsummarized};
ghost use Rattle.vdr_directory.specs.Fronts.{AreSorted, head_of, HasSurvey, HasSurveyUnless, HoldsLatest, BreaksIn, IsSurveyed, BreaksAmong};

use crate::entry::Entry;
use vdr_index::{Survey, survey};
use vdr_outside::{Media, PartRefused};
use vdr_segment::{Area, OPEN_GATE, read_first_gate, read_slot};

// Sorts segments by sequence number, and those of one sequence number by slot.
pub(crate) fn sort_by_seq(opened: &mut [Entry])
    ensures permutation { IsPermutation opened.old opened.new }
    ensures sorted { AreSorted opened.new }
{
    opened.sort_unstable_by_key(|entry| (entry.seq, entry.slot));
}

// Reads a slot into the buffer, and surveys its segment, whose first place is `first`.
fn survey_slot<M: Media>(
    media: &mut M,
    area: Area,
    slot: u32,
    first: u64,
    buffer: &mut [u8],
) -> Result<Survey, PartRefused>
    requires room { HasRoom area (M.disk media.old).sizes }
    requires within { slot < area.slots }
    requires whole { length buffer.old ≡ area.segment }
    ensures legal { IfOk result (λ s. M.tells → HasSurvey area.segment slot (content (M.disk media.old).reads area.medium) first s) }
    ensures bytes { OnOk result (M.tells → buffer.new ≡ slot_bytes area.segment slot (content (M.disk media.old).reads area.medium)) }
    ensures damaged { (k offset : ℕ) → result ≡ Err (Damaged k offset) → (k ≡ area.medium)
        × (M.tells → BreaksIn area.segment slot (content (M.disk media.old).reads area.medium) offset) }
    ensures unchanged { Unchanged (M.disk media.old) (M.disk media.new) }
    ensures counts { M.bytes_read media.new ≡ counted (M.bytes_read media.old) area.medium area.segment }
    ensures cause { HasFaultCause area.medium (M.faults media.old) (M.faults media.new) result }
{
    let Ok(()) = read_slot(media, area, slot, buffer) else {
        return Err(PartRefused::Fault);
    };
    match survey(buffer, first) {
        Ok(found) => Ok(found),
        Err(at) => Err(PartRefused::Damaged {
            medium: area.medium,
            offset: area.place_of(slot) + at as u64,
        }),
    }
}

// What was found of an entry's segment: its survey, None where its header has a summary, and whether the buffer holds
// its bytes.
#[derive(Clone, Copy, Drop)]
struct Found {
    survey: Option<Survey>,
    held: bool,
}

// Whether a segment is the newest and has no batch, by its first gate alone. Of another nothing is read.
fn is_newest_empty<M: Media>(
    media: &mut M,
    area: Area,
    slot: u32,
    newest: bool,
) -> Result<bool, PartRefused>
    requires room { HasRoom area (M.disk media.old).sizes }
    requires within { slot < area.slots }
    ensures newest { IfOk result (λ empty. IsTrue empty → newest ≡ true) }
    ensures empty { IfOk result (λ empty. M.tells → (IsTrue empty → AreBatches (drop 64 (slot_bytes area.segment slot (content (M.disk media.old).reads area.medium))) [])
        × (newest ≡ true → (batches : List (List Record)) → AreBatches (drop 64 (slot_bytes area.segment slot (content (M.disk media.old).reads area.medium))) batches → batches ≡ [] → IsTrue empty)) }
    ensures undamaged { (k offset : ℕ) → result ≡ Err (Damaged k offset) → ⊥ }
    ensures unchanged { Unchanged (M.disk media.old) (M.disk media.new) }
    ensures counts { ReadsAtMost area.medium (cond newest 1 0) (M.bytes_read media.old) (M.bytes_read media.new) }
    ensures cause { HasFaultCause area.medium (M.faults media.old) (M.faults media.new) result }
{
    if !newest {
        return Ok(false);
    }
    match read_first_gate(media, area, slot) {
        Ok(gate) => Ok(gate != OPEN_GATE),
        Err(_) => Err(PartRefused::Fault),
    }
}

// Surveys the segment of an entry whose header has no summary. It is read whole, unless it is the newest and has no
// batch: then the buffer goes on to hold what it held. Of an entry whose header has a summary nothing is read, and
// there is no survey.
fn survey_entry<M: Media>(
    media: &mut M,
    area: Area,
    entry: Entry,
    newest: bool,
    buffer: &mut [u8],
) -> Result<Found, PartRefused>
    requires room { HasRoom area (M.disk media.old).sizes }
    requires within { entry.slot < area.slots }
    requires whole { length buffer.old ≡ area.segment }
    ensures legal { IfOk result (λ found. M.tells → HasSurveyUnless area.segment entry.slot (content (M.disk media.old).reads area.medium) entry.first entry.summary found.survey) }
    ensures bytes { IfOk result (λ found. cond found.held (M.tells → buffer.new ≡ slot_bytes area.segment entry.slot (content (M.disk media.old).reads area.medium)) (buffer.new ≡ buffer.old)) }
    ensures held { IfOk result (λ found. M.tells → (newest ≡ false → entry.summary ≡ None → IsTrue found.held)
        × (newest ≡ true → IsTrue found.held ↔ (extent_by found.survey ≡ None → ⊥)) × (IsTrue found.held → entry.summary ≡ None)) }
    ensures damaged { (k offset : ℕ) → result ≡ Err (Damaged k offset) → (k ≡ area.medium) × (entry.summary ≡ None)
        × (M.tells → BreaksIn area.segment entry.slot (content (M.disk media.old).reads area.medium) offset) }
    ensures unchanged { Unchanged (M.disk media.old) (M.disk media.new) }
    ensures counts { ReadsAtMost area.medium (cond newest 1 0 + area.segment * one_if_none entry.summary) (M.bytes_read media.old) (M.bytes_read media.new) }
    ensures cause { HasFaultCause area.medium (M.faults media.old) (M.faults media.new) result }
{
    if entry.summary.is_some() {
        return Ok(Found {
            survey: None,
            held: false,
        });
    }
    if is_newest_empty(media, area, entry.slot, newest)? {
        return Ok(Found {
            survey: Some(Survey::empty()),
            held: false,
        });
    }
    let survey = survey_slot(media, area, entry.slot, entry.first, buffer)?;
    Ok(Found {
        survey: Some(survey),
        held: true,
    })
}

// The slot whose bytes the buffer holds behind a segment: its own where it was read, else that of before.
fn held_after(found: Found, slot: u32, held: Option<u32>) -> Option<u32>
    ensures { result ≡ cond found.held (Some slot) held }
{
    if found.held { Some(slot) } else { held }
}

// Surveys each of these segments whose header has no summary, in order of sequence number, and answers the slot whose
// bytes the buffer holds then: that of the last one that was read. The newest is read where it has batches. The buffer
// has room for one.
pub(crate) fn survey_all<M: Media>(
    media: &mut M,
    area: Area,
    opened: &mut [Entry],
    buffer: &mut [u8],
) -> Result<Option<u32>, PartRefused>
    requires room { HasRoom area (M.disk media.old).sizes }
    requires within { All (λ e. e.slot < area.slots) opened.old }
    requires whole { length buffer.old ≡ area.segment }
    ensures heads { map head_of opened.new ≡ map head_of opened.old }
    ensures surveyed { OnOk result (M.tells → All (IsSurveyed area.segment (content (M.disk media.old).reads area.medium)) opened.new) }
    ensures held { IfOk result (λ held. M.tells → (slot : ℕ) → held ≡ Some slot
        → buffer.new ≡ slot_bytes area.segment slot (content (M.disk media.old).reads area.medium)) }
    ensures damaged { (k offset : ℕ) → result ≡ Err (Damaged k offset) → (k ≡ area.medium)
        × (M.tells → BreaksAmong area.segment (content (M.disk media.old).reads area.medium) opened.new offset) }
    ensures unchanged { Unchanged (M.disk media.old) (M.disk media.new) }
    ensures latest { IfOk result (λ held. M.tells → HoldsLatest opened.new held) }
    ensures counts { ReadsAtMost area.medium (1 + area.segment * unsummarized opened.old) (M.bytes_read media.old) (M.bytes_read media.new) }
    ensures cause { HasFaultCause area.medium (M.faults media.old) (M.faults media.new) result }
{
    let mut held = None;
    for i in 0..opened.len() {
        let entry = opened[i];
        let newest = i + 1 == opened.len();
        let found = survey_entry(media, area, entry, newest, buffer)?;
        held = held_after(found, entry.slot, held);
        opened[i].survey = found.survey;
    }
    Ok(held)
}
