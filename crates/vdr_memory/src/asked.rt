// How often a port or a link in memory was asked, and what it answered.
ghost use Rattle.std.specs.Prelude.{◌≡◌, ◌≤◌};
ghost use Rattle.vdr_outside.specs.Calls.{asked_again};
ghost use Rattle.vdr_outside.specs.Hears.{heard_answer};
ghost use Rattle.vdr_outside.specs.Takes.{answer_of};
ghost use Rattle.vdr_memory.specs.Ports.{never_asked};

use std::marker::Model;
use vdr_outside::{Heard, Taken};

#[derive(Drop)]
pub(crate) struct Asked {
    times: u64,
    ends: u64,
    failures: u64,
    last: Taken,
}

impl Model for Asked {
    ghost use Rattle.vdr_outside.specs.Calls.{Asked as Answers};
    ghost use Rattle.vdr_outside.specs.Takes.{answer_of};

    ghost Value = { Answers };

    ghost view = { λ s. record { times = s.times; ends = s.ends; failures = s.failures; last = answer_of s.last } };
}

impl Asked {
    // Not asked yet.
    pub(crate) fn new() -> Asked
        ensures { result ≡ never_asked }
    {
        Asked {
            times: 0,
            ends: 0,
            failures: 0,
            last: Taken::Quiet,
        }
    }

    // How often it was asked, up to the greatest u64.
    pub(crate) fn times(&self) -> u64
        ensures { result ≡ self.now.times }
    {
        self.times
    }

    // How often it failed, up to the greatest u64.
    pub(crate) fn failures(&self) -> u64
        ensures { result ≡ self.now.failures }
    {
        self.failures
    }

    // Counts one more answer.
    pub(crate) fn count(&mut self, answer: Taken)
        ensures again { self.new ≡ asked_again self.old (answer_of answer) }
        ensures later { self.old.failures ≤ self.new.failures }
    {
        self.times = self.times.saturating_add(1);
        self.last = answer;
        match answer {
            Taken::Ended => self.ends = self.ends.saturating_add(1),
            Taken::Failed => self.failures = self.failures.saturating_add(1),
            Taken::Datagram { .. } | Taken::Quiet => {}
        }
    }

    // Counts one more answer to a call for a line.
    pub(crate) fn count_line(&mut self, answer: Heard)
        ensures again { self.new ≡ asked_again self.old (heard_answer answer) }
        ensures later { self.old.failures ≤ self.new.failures }
    {
        self.count(match answer {
            Heard::Line | Heard::Long | Heard::Quiet => Taken::Quiet,
            Heard::Ended => Taken::Ended,
            Heard::Failed => Taken::Failed,
        });
    }
}
