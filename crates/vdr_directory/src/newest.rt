// What a directory keeps of the newest segment, and of the last record.
//
// Which segment is to get a summary as it is left is not kept: it is the newest of the index, which knows nothing of
// one without records.
ghost use Rattle.std.specs.Prelude.{◌≡◌, ◌<◌, ◌∷◌, [], ℕ, List, All, IfSome, MatchOption, length, option_map, Some, None};
ghost use Rattle.vdr_terms.specs.Records.{last};
ghost use Rattle.vdr_index.specs.Extents.{extent_of};
ghost use Rattle.vdr_directory.specs.Sequence.{Placed, batches_in};
ghost use Rattle.vdr_directory.specs.Order.{AreInOrder};
ghost use Rattle.vdr_directory.specs.Knowns.{AreInOrderBy};
ghost use Rattle.vdr_directory.specs.Entries.{Describe, Describes};
ghost use Rattle.vdr_directory.specs.Directories.{ending_by, later, newest_of};

use crate::entry::Entry;
use vdr_entry::Record;
use vdr_index::{Extent, Survey};
use vdr_segment::HEADER_SIZE;

/// The newest segment.
#[derive(Clone, Copy, Drop)]
pub struct Newest {
    /// Its slot, counted from 0.
    pub slot: u32,
    /// Its sequence number.
    pub seq: u64,
    /// The place of its first record.
    pub first: u64,
    /// Where the gate behind its last batch stands: an offset in the segment, from 64 on.
    pub end: usize,
}

/// The medium's last record, and where its batch begins.
#[derive(Clone, Copy, Drop)]
pub struct Ending {
    /// Its place.
    pub place: u64,
    /// Recording time, in milliseconds.
    pub tick: u64,
    /// Milliseconds since 1970.
    pub utc: i64,
    /// The place of the first record of its batch.
    pub batch: u64,
}

// The end of records that reach so far.
pub(crate) fn ending_by(extent: Extent) -> Ending
    ensures { result ≡ ending_by extent }
{
    Ending {
        place: extent.last_place,
        tick: extent.last_tick,
        utc: extent.last_utc,
        batch: extent.last_batch,
    }
}

// The end of a batch that begins with one record and ends with another.
fn ending_from(first: &Record, last: &Record) -> Ending
    ensures { result ≡ record { place = last.now.place; tick = last.now.tick; utc = last.now.utc; batch = first.now.place } }
{
    Ending {
        place: last.place,
        tick: last.tick,
        utc: last.utc,
        batch: first.place,
    }
}

// The end of a batch of these records.
pub(crate) fn ending_of(records: &[Record]) -> Ending
    requires { 0 < length records.now }
    ensures { Some result ≡ option_map ending_by (extent_of (records.now ∷ [])) }
{
    ending_from(&records[0], &records[records.len() - 1])
}

// Where the gate behind the last batch stands that was surveyed. Without a survey it is where the first batch begins.
fn end_in(survey: Option<Survey>) -> usize
    ensures { MatchOption survey (result ≡ 64) (λ s. result ≡ s.end) }
{
    match survey {
        Some(survey) => survey.end,
        None => HEADER_SIZE,
    }
}

// What is kept of the segment of an entry. One that has a summary is never the newest.
fn newest_by(entry: &Entry) -> Newest
    ensures slot { result.slot ≡ entry.now.slot }
    ensures newest { (p : Placed) → Describes p entry.now → p.segment.header.summary ≡ None → result ≡ newest_of p }
{
    Newest {
        slot: entry.slot,
        seq: entry.seq,
        first: entry.first,
        end: end_in(entry.survey),
    }
}

// What is kept of the newest of these segments, which are in order of sequence number.
pub(crate) fn newest_among(opened: &[Entry]) -> Option<Newest>
    ensures slot { IfSome result (λ n. (slots : ℕ) → All (λ e. e.slot < slots) opened.now → n.slot < slots) }
    ensures newest { (placed : List Placed) → AreInOrder placed → Describe placed opened.now → result ≡ option_map newest_of (last placed) }
    ensures known { (known : List Placed) → AreInOrderBy known → Describe known opened.now → result ≡ option_map newest_of (last known) }
{
    match opened.last() {
        Some(entry) => Some(newest_by(entry)),
        None => None,
    }
}

// The end of records, with those behind them that reach so far.
fn later(before: Option<Ending>, extent: Option<Extent>) -> Option<Ending>
    ensures { result ≡ later before (option_map ending_by extent) }
{
    match extent {
        Some(extent) => Some(ending_by(extent)),
        None => before,
    }
}

// The end of the records of these segments, which are in order of sequence number. Behind one that has a summary
// there are records that were surveyed, so the last record is one of those.
pub(crate) fn ending_among(opened: &[Entry]) -> Option<Ending>
    ensures ending { (placed : List Placed) → AreInOrder placed → Describe placed opened.now → result ≡ option_map ending_by (extent_of (batches_in placed)) }
    ensures known { (known : List Placed) → AreInOrderBy known → Describe known opened.now → result ≡ option_map ending_by (extent_of (batches_in known)) }
{
    let mut ending = None;
    for entry in opened {
        ending = later(ending, entry.extent());
    }
    ending
}
