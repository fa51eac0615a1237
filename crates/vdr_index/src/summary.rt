// What records have in common, those of one run behind those of another.
ghost use Rattle.std.specs.Prelude.{◌≡◌, ◌⊎◌, ◌∷◌, ◌++◌, [], List, int_le, true};
ghost use Rattle.vdr_terms.specs.Records.{Record as Entry};
ghost use Rattle.vdr_index.specs.Summaries.{IsSummaryOf, Summarises};

use vdr_entry::Summary;

/// The summary of one record, of this tick, this stamp and these channel bits.
pub(crate) fn summary_of_one(tick: u64, utc: i64, bits: u64) -> Summary
    ensures { (r : Entry) → tick ≡ r.tick → utc ≡ r.utc → bits ≡ r.bits → IsSummaryOf (r ∷ []) result }
{
    Summary {
        count: 1,
        first_second: tick / 1000,
        last_second: tick / 1000,
        least_utc: utc,
        greatest_utc: utc,
        bits,
    }
}

fn least(a: i64, b: i64) -> i64
    ensures first { int_le result a ≡ true }
    ensures second { int_le result b ≡ true }
    ensures one { (result ≡ a) ⊎ (result ≡ b) }
{
    if a < b { a } else { b }
}

fn greatest(a: i64, b: i64) -> i64
    ensures first { int_le a result ≡ true }
    ensures second { int_le b result ≡ true }
    ensures one { (result ≡ a) ⊎ (result ≡ b) }
{
    if a < b { b } else { a }
}

/// The summary of records and of more behind them, by the summaries of both.
pub(crate) fn joined_summary(before: Summary, behind: Summary) -> Summary
    ensures { (xs ys : List Entry) → IsSummaryOf xs before → IsSummaryOf ys behind → IsSummaryOf (xs ++ ys) result }
{
    Summary {
        count: before.count.saturating_add(behind.count),
        first_second: before.first_second,
        last_second: behind.last_second,
        least_utc: least(before.least_utc, behind.least_utc),
        greatest_utc: greatest(before.greatest_utc, behind.greatest_utc),
        bits: before.bits | behind.bits,
    }
}

/// The summary of records, of which there may be none, and of more behind them.
pub(crate) fn grown_summary(before: Option<Summary>, behind: Summary) -> Summary
    ensures { (xs ys : List Entry) → Summarises xs before → IsSummaryOf ys behind → IsSummaryOf (xs ++ ys) result }
{
    match before {
        None => behind,
        Some(before) => joined_summary(before, behind),
    }
}
