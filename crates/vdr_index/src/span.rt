// What a query's medium comes to, and whether a segment meets it.
ghost use Rattle.std.specs.Prelude.{◌≡◌, ◌+◌, nat_lt};
ghost use Rattle.vdr_terms.specs.Records.{Record};
ghost use Rattle.vdr_terms.specs.Queries.{has_channel, in_span, meets, meets_span};
ghost use Rattle.vdr_terms.specs.Windows.{in_window};
ghost use Rattle.vdr_entry.specs.Queries.{asked};
ghost use Rattle.vdr_index.specs.Indexes.{span_as, summary_of};

use crate::Known;
use vdr_entry::Query;

/// What a query's medium comes to.
#[derive(Clone, Copy, Debug, PartialEq, Eq, Drop)]
pub enum Span {
    /// So many seconds of recording time, which end with the second `last`.
    Window { last: u64, seconds: u64 },
    /// The places of a saved incident, from a to b.
    Places { a: u64, b: u64 },
}

// Whether a second is less than so many seconds older than the last. No sum is taken: a summary's seconds are any numbers.
fn is_within(second: u64, last: u64, seconds: u64) -> bool
    ensures { result ≡ in_window second last seconds }
{
    last < second || last - second < seconds
}

// Whether count places from the first one on reach beyond this one.
fn reaches(first: u64, count: u32, place: u64) -> bool
    ensures { result ≡ nat_lt place (first + count) }
{
    place < first || place - first < count as u64
}

/// Whether the bit of a channel is set, as it is where no channel is asked for.
pub fn has_channel(channel: Option<u8>, bits: u64) -> bool
    ensures { result ≡ has_channel channel bits }
{
    match channel {
        None => true,
        Some(number) => number < 64 && bits >> number & 1 == 1,
    }
}

impl Span {
    /// Whether a record of this place and this tick, in milliseconds of recording time, is within it.
    pub fn has(self, place: u64, tick: u64) -> bool
        ensures { (r : Record) → place ≡ r.place → tick ≡ r.tick → result ≡ in_span (span_as self) r }
    {
        match self {
            Span::Window { last, seconds } => is_within(tick / 1000, last, seconds),
            Span::Places { a, b } => a <= place && place <= b,
        }
    }

    // Whether a segment of which this is known may have a record within it.
    fn meets(self, known: Known) -> bool
        ensures { result ≡ meets_span (span_as self) (summary_of known) }
    {
        match self {
            Span::Window { last, seconds } => is_within(known.summary.last_second, last, seconds),
            Span::Places { a, b } => known.first <= b
                && reaches(known.first, known.summary.count, a),
        }
    }
}

// Whether a segment of which this is known may have a record that the query selects of the span.
pub(crate) fn meets(query: &Query, span: Span, known: Known) -> bool
    ensures { result ≡ meets (asked query.now) (span_as span) (summary_of known) }
{
    span.meets(known)
        && has_channel(query.channel, known.summary.bits)
        && query.from <= known.summary.greatest_utc
        && known.summary.least_utc <= query.to
}
