// How often an object outside was asked, and what it answered.
ghost use Rattle.std.specs.Prelude.{◌≡◌, ◌≤◌};
ghost use Rattle.vdr_outside.specs.Calls.{asked_again, ended, failed, other};
ghost use Rattle.vdr_outside.specs.Causes.{Rose};

use std::marker::Model;

// What the last call answered.
#[derive(Clone, Copy, Drop)]
enum Last {
    Other,
    Ended,
    Failed,
}

/// The calls of an object. Each number stays at the greatest u64 once it is there.
#[derive(Drop)]
pub(crate) struct Calls {
    times: u64,
    ends: u64,
    failures: u64,
    last: Last,
}

impl Model for Calls {
    ghost use Rattle.vdr_outside.specs.Calls.{Asked};
    ghost use Rattle.vdr_sockets.specs.Answers.{answer_of};

    ghost Value = { Asked };

    ghost view = { λ s. record { times = s.times; ends = s.ends; failures = s.failures; last = answer_of s.last } };
}

impl Calls {
    // None was made yet.
    pub(crate) fn new() -> Calls {
        Calls {
            times: 0,
            ends: 0,
            failures: 0,
            last: Last::Other,
        }
    }

    // Counts a call that neither ended nor failed.
    pub(crate) fn count(&mut self)
        ensures again { self.new ≡ asked_again self.old other }
        ensures same { self.new.failures ≡ self.old.failures }
    {
        self.times = self.times.saturating_add(1);
        self.last = Last::Other;
    }

    // Counts a call that answered that all was given.
    pub(crate) fn count_end(&mut self)
        ensures again { self.new ≡ asked_again self.old ended }
        ensures same { self.new.failures ≡ self.old.failures }
    {
        self.times = self.times.saturating_add(1);
        self.ends = self.ends.saturating_add(1);
        self.last = Last::Ended;
    }

    // Counts a call that failed.
    pub(crate) fn count_failure(&mut self)
        ensures again { self.new ≡ asked_again self.old failed }
        ensures later { self.old.failures ≤ self.new.failures }
        ensures rose { Rose self.old.failures self.new.failures }
    {
        self.times = self.times.saturating_add(1);
        self.failures = self.failures.saturating_add(1);
        self.last = Last::Failed;
    }
}
