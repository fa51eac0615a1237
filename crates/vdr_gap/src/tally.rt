// The tally of a port's worker: what it pushed, and what was missed by cause.
//
// The totals stand beside what was missed since the last push, since a port's summary needs them.
ghost use Rattle.std.specs.Prelude.{◌≡◌, ◌≤◌, ◌<◌, ◌+◌, ◌^◌};
ghost use Rattle.vdr_terms.specs.Records.{total};

use std::marker::Model;
use vdr_terms::Counts;

/// What a port's worker counts in a run: each item that the port gave is counted as missed or pushed.
#[derive(Drop)]
pub struct Tally {
    taken: u64,
    missed: Counts,
    totals: Counts,
}

impl Model for Tally {
    ghost use Rattle.std.specs.Prelude.{◌≤◌};
    ghost use Rattle.vdr_terms.specs.Counting.{Tally as TallyTold};
    ghost use Rattle.vdr_terms.specs.Records.{total};

    ghost Value = { TallyTold };

    ghost view = { λ t. record { taken = t.taken; missed = t.missed; totals = t.totals } };

    ghost invariant = { λ t. (total t.missed ≤ t.taken) × (total t.totals ≤ t.taken) };
}

/// No item.
const NONE: Counts = Counts {
    full: 0,
    rate: 0,
    bad: 0,
    large: 0,
};

impl Tally {
    ghost use Rattle.vdr_terms.specs.Counting.{no_tally, tallied, pushed, one_full, one_bad, one_large};

    /// Nothing was given yet.
    pub fn new() -> Tally
        ensures { result ≡ no_tally }
    {
        Tally {
            taken: 0,
            missed: NONE,
            totals: NONE,
        }
    }

    /// Counts an item that is no recordable datagram.
    pub fn bad(&mut self)
        requires { self.old.taken + 1 < 2 ^ 63 }
        ensures { self.new ≡ tallied one_bad self.old }
    {
        self.taken += 1;
        self.missed.bad += 1;
        self.totals.bad += 1;
    }

    /// Counts an item of more than 1,472 bytes.
    pub fn large(&mut self)
        requires { self.old.taken + 1 < 2 ^ 63 }
        ensures { self.new ≡ tallied one_large self.old }
    {
        self.taken += 1;
        self.missed.large += 1;
        self.totals.large += 1;
    }

    /// Counts an item that found the queue full.
    pub fn full(&mut self)
        requires { self.old.taken + 1 < 2 ^ 63 }
        ensures { self.new ≡ tallied one_full self.old }
    {
        self.taken += 1;
        self.missed.full += 1;
        self.totals.full += 1;
    }

    /// What was missed since the last push.
    pub fn counts(&self) -> Counts
        ensures missed { result ≡ self.now.missed }
        ensures bound { total result ≤ self.now.taken }
    {
        self.missed
    }

    /// Counts a push, after which nothing is missed.
    pub fn pushed(&mut self)
        requires { self.old.taken + 1 < 2 ^ 63 }
        ensures { self.new ≡ pushed self.old }
    {
        self.taken += 1;
        self.missed = NONE;
    }

    /// The number of items counted or pushed, which is the number of the port's next item.
    pub fn taken(&self) -> u64
        ensures { result ≡ self.now.taken }
    {
        self.taken
    }

    /// What was missed since `new`.
    pub fn totals(&self) -> Counts
        ensures missed { result ≡ self.now.totals }
        ensures bound { total result ≤ self.now.taken }
    {
        self.totals
    }
}
