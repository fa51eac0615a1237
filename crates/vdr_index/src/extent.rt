// What is kept of a segment's records: where they begin and end, and what they have in common.
ghost use Rattle.std.specs.Prelude.{◌≡◌, ◌↔◌, ◌+◌, ◌∷◌, [], ◌++◌, ℕ, List, IsTrue};
ghost use Rattle.vdr_terms.specs.Records.{Record as Entry};
ghost use Rattle.vdr_terms.specs.Sizes.{batch_size};
ghost use Rattle.vdr_index.specs.Stretches.{ComesTo, GoesOn, grown};
ghost use Rattle.vdr_index.specs.Surveys.{Surveys};

use crate::stretch::{Mark, Stretch};
use crate::summary::grown_summary;
use vdr_entry::Summary;
use vdr_segment::HEADER_SIZE;

/// From where to where the records of some batches reach.
#[derive(Clone, Copy, Debug, PartialEq, Eq, Drop)]
pub struct Extent {
    /// The tick of the first record: recording time in milliseconds, below 2^63.
    pub first_tick: u64,
    /// The place of the last record: 0, 1, 2 .. over the life of the media, below 2^63.
    pub last_place: u64,
    /// The tick of the last record.
    pub last_tick: u64,
    /// The UTC stamp of the last record, in milliseconds since 1970, within the years 1970 to 9999.
    pub last_utc: i64,
    /// The place of the first record of the last batch.
    pub last_batch: u64,
}

impl Extent {
    fn last(self) -> Mark
        ensures { result ≡ record { place = self.last_place; tick = self.last_tick; utc = self.last_utc } }
    {
        Mark {
            place: self.last_place,
            tick: self.last_tick,
            utc: self.last_utc,
        }
    }
}

/// What the batches of a segment come to.
#[derive(Clone, Copy, Debug, PartialEq, Eq, Drop)]
pub struct Survey {
    /// Where the gate behind the last batch stands: an offset in the segment, from 64 on.
    pub end: usize,
    /// None where there is no record.
    pub extent: Option<Extent>,
    /// Places run on from the segment's first place, and ticks never fall.
    pub in_order: bool,
    /// What the records have in common. None where there is no record. Its count is at most 2^32 - 1, also where there are more.
    pub summary: Option<Summary>,
}

// A record goes on from where the extent ends, or is the first one and has the first place.
fn goes_on(extent: Option<Extent>, first: u64, next: Mark) -> bool
    ensures { IsTrue result ↔ GoesOn first extent next }
{
    match extent {
        Some(before) => next.follows(before.last()),
        None => next.place == first,
    }
}

// The extent with one batch more, whose records come to this.
fn grown(extent: Option<Extent>, stretch: Stretch) -> Extent
    ensures { result ≡ grown extent stretch.first stretch.last }
{
    let Mark { place, tick, utc } = stretch.last;
    Extent {
        first_tick: extent.map_or(stretch.first.tick, |before| before.first_tick),
        last_place: place,
        last_tick: tick,
        last_utc: utc,
        last_batch: stretch.first.place,
    }
}

impl Survey {
    /// The survey of a segment that has no batch yet.
    pub fn empty() -> Survey
        ensures end { result.end ≡ 64 }
        ensures survey { (first : ℕ) → Surveys first [] result }
    {
        Survey {
            end: HEADER_SIZE,
            extent: None,
            in_order: true,
            summary: None,
        }
    }

    // Places and ticks are in order with those of the stretch behind.
    fn goes_on_with(self, first: u64, stretch: Stretch) -> bool
        ensures { IsTrue result ↔ (IsTrue self.in_order × GoesOn first self.extent stretch.first × IsTrue stretch.in_order) }
    {
        self.in_order && goes_on(self.extent, first, stretch.first) && stretch.in_order
    }

    // With one batch more, whose records come to this and whose end is there.
    pub(crate) fn joined(self, first: u64, stretch: Stretch, end: usize) -> Survey
        ensures end { result.end ≡ end }
        ensures survey { (batches : List (List Entry)) (records : List Entry) → Surveys first batches self → ComesTo records stretch
            → end ≡ self.end + batch_size records → Surveys first (batches ++ records ∷ []) result }
    {
        Survey {
            end,
            extent: Some(grown(self.extent, stretch)),
            in_order: self.goes_on_with(first, stretch),
            summary: Some(grown_summary(self.summary, stretch.summary)),
        }
    }
}
