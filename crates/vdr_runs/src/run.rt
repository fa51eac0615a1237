// What the records of a run tell of it.
ghost use Rattle.std.specs.Prelude.{◌≡◌};
ghost use Rattle.vdr_runs.specs.Runs.{of_first, with_gap, with_record};

use std::marker::Model;
use vdr_entry::{Content, Record};
use vdr_terms::Counts;

/// What the records of a run tell of it so far.
#[derive(Drop)]
pub(crate) struct Run {
    /// The places of its first and of its last record.
    pub(crate) first: u64,
    pub(crate) last: u64,
    /// The stamps of its first and of its last Datagram.
    pub(crate) since: Option<i64>,
    pub(crate) until: Option<i64>,
    /// The tick of its last record.
    pub(crate) tick: u64,
    /// What its Gaps count.
    pub(crate) missed: Counts,
}

impl Model for Run {
    ghost use Rattle.vdr_runs.specs.Runs.{Run as ARun};
    ghost use Rattle.vdr_runs.specs.Views.{IsKept};

    ghost Value = { ARun };

    ghost view = { λ r. record { first = r.first; last = r.last; since = r.since; until = r.until; tick = r.tick; missed = r.missed } };

    ghost invariant = { λ r. IsKept (record { first = r.first; last = r.last; since = r.since; until = r.until; tick = r.tick; missed = r.missed }) };
}

// Both counts together; each stands still at the greatest number.
fn with_gap(missed: Counts, gap: Counts) -> Counts
    ensures { result ≡ with_gap missed gap }
{
    Counts {
        full: missed.full.saturating_add(gap.full),
        rate: missed.rate.saturating_add(gap.rate),
        bad: missed.bad.saturating_add(gap.bad),
        large: missed.large.saturating_add(gap.large),
    }
}

impl Run {
    /// The run that this record begins.
    pub(crate) fn of_first(item: &Record) -> Run
        ensures { result ≡ of_first item.now }
    {
        let mut run = Run {
            first: item.place,
            last: item.place,
            since: None,
            until: None,
            tick: item.tick,
            missed: Counts {
                full: 0,
                rate: 0,
                bad: 0,
                large: 0,
            },
        };
        run.add(item);
        run
    }

    /// One more record of the run.
    pub(crate) fn add(&mut self, item: &Record)
        ensures { self.new ≡ with_record self.old item.now }
    {
        self.last = item.place;
        self.tick = item.tick;
        match item.content() {
            Content::Datagram(_) => {
                self.since = Some(self.since.unwrap_or(item.utc));
                self.until = Some(item.utc);
            }
            Content::Gap(missed) => self.missed = with_gap(self.missed, missed),
            Content::Start | Content::Stop => {}
        }
    }
}
