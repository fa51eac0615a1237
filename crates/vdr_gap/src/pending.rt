// What a group has missed since its last Datagram record, until the next Gap.
//
// `datagram` moves past an item whatever is pending: the recorder takes the gap before, so that nothing is lost.
ghost use Rattle.std.specs.Prelude.{◌≡◌, ◌≤◌, ◌<◌, ◌+◌, ◌^◌, IsNone, IfSome, ◌↔◌};
ghost use Rattle.vdr_terms.specs.Records.{total};

use std::marker::Model;
use vdr_terms::Counts;

/// What a group missed since its last Datagram record, as the recorder keeps it until the next Gap.
#[derive(Drop)]
pub struct Pending {
    first: u64,
    missed: Counts,
}

impl Model for Pending {
    ghost use Rattle.std.specs.Prelude.{◌<◌, ◌+◌, ◌^◌};
    ghost use Rattle.vdr_terms.specs.Counting.{Pending as PendingTold};
    ghost use Rattle.vdr_terms.specs.Records.{total};

    ghost Value = { PendingTold };

    ghost view = { λ p. record { first = p.first; missed = p.missed } };

    ghost invariant = { λ p. p.first + total p.missed < 2 ^ 63 };
}

/// No item.
const NONE: Counts = Counts {
    full: 0,
    rate: 0,
    bad: 0,
    large: 0,
};

impl Pending {
    ghost use Rattle.vdr_terms.specs.Counting.{no_pending, with_missed, past_refusal, past_gap, past_datagram, next_number};

    /// Nothing was given yet, and nothing is missed.
    pub fn new() -> Pending
        ensures { result ≡ no_pending }
    {
        Pending {
            first: 0,
            missed: NONE,
        }
    }

    /// Adds what a port's worker counted.
    pub fn merge(&mut self, counts: &Counts)
        requires { next_number self.old + total counts.now < 2 ^ 63 }
        ensures { self.new ≡ with_missed counts.now self.old }
    {
        self.missed.full += counts.full;
        self.missed.rate += counts.rate;
        self.missed.bad += counts.bad;
        self.missed.large += counts.large;
    }

    /// Counts an item that the rate refused.
    pub fn rate(&mut self)
        requires { next_number self.old + 1 < 2 ^ 63 }
        ensures { self.new ≡ past_refusal self.old }
    {
        self.missed.rate += 1;
    }

    /// The first missed number with the counts, which are then cleared. None exactly where nothing is missed.
    pub fn take(&mut self) -> Option<(u64, Counts)>
        ensures none { IsNone result ↔ (total self.old.missed ≡ 0) }
        ensures gap { IfSome result (λ gap. (gap.0 ≡ self.old.first) × (gap.1 ≡ self.old.missed)) }
        ensures after { self.new ≡ past_gap self.old }
    {
        let Counts {
            full,
            rate,
            bad,
            large,
        } = self.missed;
        let total = full + rate + bad + large;
        if total == 0 {
            return None;
        }
        let gap = (self.first, self.missed);
        self.first += total;
        self.missed = NONE;
        Some(gap)
    }

    /// The number of the group's next item.
    pub fn next(&self) -> u64
        ensures number { result ≡ next_number self.now }
        ensures bound { result < 2 ^ 63 }
    {
        self.first + self.missed.full + self.missed.rate + self.missed.bad + self.missed.large
    }

    /// Moves past an item that is recorded. What was missed before it has its Gap by then.
    pub fn datagram(&mut self)
        requires { next_number self.old + 1 < 2 ^ 63 }
        ensures { self.new ≡ past_datagram self.old }
    {
        self.first = self.next() + 1;
        self.missed = NONE;
    }
}
