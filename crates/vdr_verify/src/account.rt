// The account of the records of a file.
ghost use Rattle.std.specs.Prelude.{◌≡◌};
ghost use Rattle.vdr_verify.specs.Accounts.{HasStamps, account_with, missed_with, no_account, spot_of, with_kind};

use vdr_entry::{Content, Record};
use vdr_terms::Counts;

/// Where a record stands, and when.
#[derive(Clone, Copy, Drop)]
pub(crate) struct Spot {
    pub(crate) place: u64,
    pub(crate) utc: i64,
}

/// Where a record stands, and when.
pub(crate) fn spot_of(item: &Record) -> Spot
    ensures { result ≡ spot_of item.now }
{
    Spot {
        place: item.place,
        utc: item.utc,
    }
}

/// How many records there are, of each kind, what the gaps among them count, and where the first and the last of them stand. Each number
/// stands still at the greatest u64.
#[derive(Drop)]
pub(crate) struct Account {
    pub(crate) records: u64,
    pub(crate) starts: u64,
    pub(crate) datagrams: u64,
    pub(crate) gaps: u64,
    pub(crate) stops: u64,
    pub(crate) missed: Counts,
    pub(crate) first: Option<Spot>,
    pub(crate) last: Option<Spot>,
}

// What was missed, with a gap more.
fn missed_with(sum: Counts, missed: Counts) -> Counts
    ensures { result ≡ missed_with sum missed }
{
    Counts {
        full: sum.full.saturating_add(missed.full),
        rate: sum.rate.saturating_add(missed.rate),
        bad: sum.bad.saturating_add(missed.bad),
        large: sum.large.saturating_add(missed.large),
    }
}

impl Account {
    /// Of no record.
    pub(crate) fn new() -> Account
        ensures none { result ≡ no_account }
        ensures stamps { HasStamps result }
    {
        Account {
            records: 0,
            starts: 0,
            datagrams: 0,
            gaps: 0,
            stops: 0,
            missed: Counts {
                full: 0,
                rate: 0,
                bad: 0,
                large: 0,
            },
            first: None,
            last: None,
        }
    }

    // The record by its kind.
    fn add_kind(&mut self, item: &Record)
        ensures { self.new ≡ with_kind self.old item.now.content }
    {
        match item.content() {
            Content::Start => self.starts = self.starts.saturating_add(1),
            Content::Datagram(_) => self.datagrams = self.datagrams.saturating_add(1),
            Content::Gap(missed) => {
                self.gaps = self.gaps.saturating_add(1);
                self.missed = missed_with(self.missed, missed);
            }
            Content::Stop => self.stops = self.stops.saturating_add(1),
        }
    }

    /// With one record more.
    pub(crate) fn add(&mut self, item: &Record)
        ensures grown { self.new ≡ account_with self.old item.now }
        ensures stamps { HasStamps self.old → HasStamps self.new }
    {
        self.add_kind(item);
        let spot = Spot {
            place: item.place,
            utc: item.utc,
        };
        self.records = self.records.saturating_add(1);
        self.first = Some(self.first.unwrap_or(spot));
        self.last = Some(spot);
    }
}
