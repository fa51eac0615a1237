// What records one after another come to: first and last, whether they are in order, and their summary.
ghost use Rattle.std.specs.Prelude.{◌≡◌, ◌<◌, ◌↔◌, ◌∷◌, [], ◌++◌, ℕ, List, length, IsTrue};
ghost use Rattle.vdr_terms.specs.Records.{Record as Entry};
ghost use Rattle.vdr_terms.specs.Sizes.{record_size};
ghost use Rattle.vdr_entry.specs.Reading.{Begins};
ghost use Rattle.vdr_segment.specs.Batches.{AreRecords};
ghost use Rattle.vdr_index.specs.Summaries.{IsSummaryOf, Summarises};
ghost use Rattle.vdr_index.specs.Stretches.{mark_of, Follows, ComesTo};

use crate::head::head_at;
use crate::summary::{grown_summary, joined_summary, summary_of_one};
use vdr_entry::{Record, Summary};

/// What is kept of a record: its place, its tick in milliseconds, and its stamp in milliseconds since 1970.
#[derive(Clone, Copy, Drop)]
pub(crate) struct Mark {
    pub(crate) place: u64,
    pub(crate) tick: u64,
    pub(crate) utc: i64,
}

impl Mark {
    pub(crate) fn follows(self, before: Mark) -> bool
        ensures { IsTrue result ↔ Follows before self }
    {
        before.place < self.place && self.place - before.place == 1 && before.tick <= self.tick
    }
}

/// What records, one after another, come to.
#[derive(Clone, Copy, Drop)]
pub(crate) struct Stretch {
    pub(crate) first: Mark,
    pub(crate) last: Mark,
    /// Places run on from the first one, and ticks never fall.
    pub(crate) in_order: bool,
    pub(crate) summary: Summary,
}

impl Stretch {
    fn one(mark: Mark, summary: Summary) -> Stretch
        ensures { (r : Entry) → mark ≡ mark_of r → IsSummaryOf (r ∷ []) summary → ComesTo (r ∷ []) result }
    {
        Stretch {
            first: mark,
            last: mark,
            in_order: true,
            summary,
        }
    }

    // With one record more, of which this is kept and which by itself has this summary.
    fn with(self, mark: Mark, summary: Summary) -> Stretch
        ensures { (records : List Entry) (r : Entry) → ComesTo records self → mark ≡ mark_of r → IsSummaryOf (r ∷ []) summary → ComesTo (records ++ r ∷ []) result }
    {
        let summary = joined_summary(self.summary, summary);
        Stretch {
            first: self.first,
            last: mark,
            in_order: self.in_order && mark.follows(self.last),
            summary,
        }
    }
}

fn mark_of(item: &Record) -> Mark
    ensures { result ≡ mark_of item.now }
{
    Mark {
        place: item.place,
        tick: item.tick,
        utc: item.utc,
    }
}

fn summary_of(item: &Record) -> Summary
    ensures { IsSummaryOf (item.now ∷ []) result }
{
    summary_of_one(item.tick, item.utc, item.bits)
}

/// What these records, at least one, come to.
pub(crate) fn stretch_of(records: &[Record]) -> Stretch
    requires { 0 < length records.now }
    ensures { ComesTo records.now result }
{
    let (first, others) = (&records[0], &records[1..]);
    let mut stretch = Stretch::one(mark_of(first), summary_of(first));
    for item in others {
        stretch = stretch.with(mark_of(item), summary_of(item));
    }
    stretch
}

/// The summary of records, of which there may be none, and of these behind them, at least one.
pub fn summary_with(before: Option<Summary>, records: &[Record]) -> Summary
    requires { 0 < length records.now }
    ensures { (others : List Entry) → Summarises others before → IsSummaryOf (others ++ records.now) result }
{
    grown_summary(before, stretch_of(records).summary)
}

// What is kept of the record at the front of the bytes, its summary, and how many bytes it takes. That there is one is not
// asked again.
fn mark_at(bytes: &[u8]) -> (Mark, Summary, usize)
    requires { (r : Entry) × (rest : List ℕ) × Begins bytes.now r rest }
    ensures { (r : Entry) × (rest : List ℕ) × Begins bytes.now r rest × (result.0 ≡ mark_of r) × IsSummaryOf (r ∷ []) result.1 × (result.2 ≡ record_size r) }
{
    let head = head_at(bytes);
    let mark = Mark {
        place: head.place,
        tick: head.tick,
        utc: head.utc,
    };
    let summary = summary_of_one(head.tick, head.utc, head.bits);
    (mark, summary, head.size)
}

/// What the records in the bytes, at least one, come to.
pub(crate) fn stretch_in(bytes: &[u8]) -> Stretch
    requires some { 0 < length bytes.now }
    requires legal { (records : List Entry) × AreRecords bytes.now records }
    ensures { (records : List Entry) × AreRecords bytes.now records × ComesTo records result }
{
    let (first, summary, size) = mark_at(bytes);
    let mut stretch = Stretch::one(first, summary);
    let mut rest = &bytes[size..];
    while !rest.is_empty() {
        let (mark, summary, size) = mark_at(rest);
        stretch = stretch.with(mark, summary);
        rest = &rest[size..];
    }
    stretch
}
