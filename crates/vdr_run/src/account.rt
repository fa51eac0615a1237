// What a run has counted of one transmission group.
ghost use Rattle.std.specs.Prelude.{◌≡◌, ◌<◌, ◌+◌, ◌^◌, IfSome};
ghost use Rattle.vdr_terms.specs.Counting.{next_number};
ghost use Rattle.vdr_terms.specs.Records.{total};

use std::marker::Model;
use vdr_gap::Pending;
use vdr_terms::Counts;

/// What the group missed since its last Datagram record, and how many of its items the run has recorded and refused.
#[derive(Drop)]
pub(crate) struct Account {
    pending: Pending,
    recorded: u64,
    refused: u64,
}

impl Model for Account {
    ghost use Rattle.std.specs.Prelude.{◌≤◌, ◌+◌};
    ghost use Rattle.vdr_terms.specs.Counting.{next_number};
    ghost use Rattle.vdr_run.specs.Accounts.{Counted};

    ghost Value = { Counted };

    ghost view = { λ a. record { pending = a.pending; recorded = a.recorded; refused = a.refused } };

    ghost invariant = { λ a. a.recorded + a.refused ≤ next_number a.pending };
}

impl Account {
    ghost use Rattle.vdr_run.specs.Accounts.{nothing_counted, with_recorded, with_refused, with_rest, gap_after};

    /// Nothing was given yet.
    pub(crate) fn new() -> Account
        ensures { result ≡ nothing_counted }
    {
        Account {
            pending: Pending::new(),
            recorded: 0,
            refused: 0,
        }
    }

    /// The port missed these, and then an item came that is recorded. Answers the gap that stands before it, if anything is
    /// pending by then.
    pub(crate) fn record(&mut self, missed: &Counts) -> Option<(u64, Counts)>
        requires { next_number self.old.pending + total missed.now + 1 < 2 ^ 63 }
        ensures missed { IfSome result (λ gap. 0 < total gap.1) }
        ensures gap { result ≡ gap_after missed.now self.old.pending }
        ensures after { self.new ≡ with_recorded missed.now self.old }
    {
        self.pending.merge(missed);
        let gap = self.pending.take();
        self.pending.datagram();
        self.recorded += 1;
        gap
    }

    /// The port missed these, and then an item came that the rate refuses.
    pub(crate) fn refuse(&mut self, missed: &Counts)
        requires { next_number self.old.pending + total missed.now + 1 < 2 ^ 63 }
        ensures { self.new ≡ with_refused missed.now self.old }
    {
        self.pending.merge(missed);
        self.pending.rate();
        self.refused += 1;
    }

    /// The port missed these at the end. Answers the closing gap, if anything is pending by then.
    pub(crate) fn close(&mut self, missed: &Counts) -> Option<(u64, Counts)>
        requires { next_number self.old.pending + total missed.now < 2 ^ 63 }
        ensures missed { IfSome result (λ gap. 0 < total gap.1) }
        ensures gap { result ≡ gap_after missed.now self.old.pending }
        ensures after { self.new ≡ with_rest missed.now self.old }
    {
        self.pending.merge(missed);
        self.pending.take()
    }

    /// How many items are recorded, and how many the rate refused.
    pub(crate) fn sums(&self) -> (u64, u64)
        ensures { result ≡ (self.now.recorded, self.now.refused) }
    {
        (self.recorded, self.refused)
    }
}
