// Whether records agree with a summary, by what they come to.
ghost use Rattle.std.specs.Prelude.{◌≡◌, ◌≤◌, ◌↔◌, ℕ, List, true, IsTrue, All, length, Some};
ghost use Rattle.vdr_terms.specs.Records.{Record as Entry};
ghost use Rattle.vdr_terms.specs.Order.{NeverFalls, RunOn};
ghost use Rattle.vdr_terms.specs.Queries.{has_channel};
ghost use Rattle.vdr_index.specs.Extents.{records_in};
ghost use Rattle.vdr_index.specs.Summaries.{Summarises};
ghost use Rattle.vdr_index.specs.Surveys.{Surveys};
ghost use Rattle.vdr_index.specs.Audits.{AreWithin, Covers, IsCovered};

use crate::Survey;
use vdr_entry::Summary;

// Whether each channel's bit that is set here is set there.
fn are_among(bits: u64, others: u64) -> bool
    ensures { IsTrue result ↔ ((k : ℕ) → has_channel (Some k) bits ≡ true → has_channel (Some k) others ≡ true) }
{
    bits | others == others
}

// Whether records with this summary of their own are within another one.
fn covers(summary: &Summary, own: &Summary) -> bool
    ensures { IsTrue result ↔ Covers summary.now own.now }
{
    summary.first_second <= own.first_second
        && own.last_second <= summary.last_second
        && summary.least_utc <= own.least_utc
        && own.greatest_utc <= summary.greatest_utc
        && are_among(own.bits, summary.bits)
}

// Whether records whose ticks never fall, which have this summary of their own, are within another one.
fn are_covered(own: Option<Summary>, summary: &Summary) -> bool
    ensures { (records : List Entry) → Summarises records own → NeverFalls 0 records → IsTrue result ↔ All (IsCovered summary.now) records }
{
    match own {
        None => true,
        Some(own) => covers(summary, &own),
    }
}

// Whether the records that were surveyed, which run on, are no more than so many.
fn has_at_most(found: &Survey, first: u64, count: u32) -> bool
    ensures { (batches : List (List Entry)) → Surveys first batches found.now → RunOn first (records_in batches)
        → IsTrue result ↔ (length (records_in batches) ≤ count) }
{
    match found.extent {
        None => true,
        Some(extent) => extent.last_place.saturating_sub(first) < count as u64,
    }
}

// Whether the records that were surveyed, which run on, are no fewer than so many.
pub(crate) fn has_at_least(found: &Survey, first: u64, count: u32) -> bool
    ensures { (batches : List (List Entry)) → Surveys first batches found.now → RunOn first (records_in batches)
        → IsTrue result ↔ (count ≤ length (records_in batches)) }
{
    match found.extent {
        None => count == 0,
        Some(extent) => count as u64 <= extent.last_place.saturating_sub(first).saturating_add(1),
    }
}

// Whether the records that were surveyed agree with the summary of their segment, whose first place is `first`.
pub(crate) fn are_within(found: &Survey, first: u64, summary: &Summary) -> bool
    ensures { (batches : List (List Entry)) → Surveys first batches found.now → IsTrue result ↔ AreWithin first summary.now (records_in batches) }
{
    found.in_order
        && has_at_most(found, first, summary.count)
        && are_covered(found.summary, summary)
}
