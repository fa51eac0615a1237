// A link in memory: it gives its lines, keeps the replies, and fails where it is told to.
ghost use Rattle.std.specs.Prelude.{◌≡◌, ◌≤◌, ◌⊎◌, [], ◌++◌, ◌↔◌, Some, OnOk, OnErr, IsErr, Contains};
ghost use Rattle.std.specs.Io.KnownBytes.{Appends};
ghost use Rattle.vdr_outside.specs.Calls.{asked_again};
ghost use Rattle.vdr_outside.specs.Causes.{HasCause, Rose};
ghost use Rattle.vdr_outside.specs.Hears.{Hears, heard_answer};
ghost use Rattle.vdr_outside.specs.Writes.{AppendsFront};
ghost use Rattle.vdr_outside.specs.declared.link.Heard.TheVariants.{Failed as HeardFailed};
ghost use Rattle.vdr_outside.specs.Calls.{one_more};
ghost use Rattle.vdr_memory.specs.Links.{AnswersLine};
ghost use Rattle.vdr_memory.specs.Ports.{never_asked};

use crate::LinkLine;
use crate::asked::Asked;
use crate::lines::Lines;
use arrayvec::ArrayVec;
use std::alloc::Global;
use std::marker::Model;
use vdr_outside::{Failed, Heard, LONGEST_LINE, Link};

/// Which calls of a link in memory do what, each by its number from 0.
#[derive(Drop)]
pub struct LinkPlan {
    /// The calls for a line that fail.
    pub failing: Vec<u64>,
    /// The calls for a line that find none in time.
    pub quiet: Vec<u64>,
    /// The replies that fail.
    pub refusing: Vec<u64>,
}

/// A link over a list of lines that keeps what is replied. It fails and is quiet at the calls that it is told.
#[derive(Drop)]
pub struct MemoryLink {
    lines: Lines,
    replied: Vec<u8>,
    plan: LinkPlan,
    asked: Asked,
    replies: u64,
    faults: u64,
}

impl Model for MemoryLink {
    ghost use Rattle.vdr_memory.specs.Links.{LinkInMemory};

    ghost Value = { LinkInMemory };

    ghost view = { λ s. record {
      left = s.lines;
      replied = s.replied.items;
      failing = s.plan.failing.items;
      quiet = s.plan.quiet.items;
      refusing = s.plan.refusing.items;
      asked = s.asked;
      replies = s.replies;
      faults = s.faults;
    } };
}

impl MemoryLink {
    /// A link that gives these lines in their order, and does at the calls of the plan what that says.
    pub fn new(alloc: Global, lines: Vec<LinkLine>, plan: LinkPlan) -> MemoryLink
        ensures { result ≡ record {
          left = lines.items;
          replied = [];
          failing = plan.failing.items;
          quiet = plan.quiet.items;
          refusing = plan.refusing.items;
          asked = never_asked;
          replies = 0;
          faults = 0;
        } }
    {
        MemoryLink {
            lines: Lines::new(lines),
            replied: Vec::new(alloc),
            plan,
            asked: Asked::new(),
            replies: 0,
            faults: 0,
        }
    }

    /// The lines not yet given.
    pub fn left(&self) -> &[LinkLine]
        ensures { result.now ≡ self.now.left }
    {
        self.lines.left()
    }

    /// The bytes of all replies.
    pub fn replied(&self) -> &[u8]
        ensures { result.now ≡ self.now.replied }
    {
        self.replied.as_slice()
    }

    /// How many calls for a line were made, up to the greatest u64.
    pub fn calls(&self) -> u64
        ensures { result ≡ self.now.asked.times }
    {
        self.asked.times()
    }

    /// How many calls failed, up to the greatest u64.
    pub fn faults(&self) -> u64
        ensures { result ≡ self.now.faults }
    {
        self.faults
    }

    // Answers a call for a line that is not counted yet.
    fn answer(&mut self, into: &mut ArrayVec<u8, LONGEST_LINE>) -> Heard
        ensures heard { Hears (Some self.old.left) (Some self.new.left) result into.new.items }
        ensures answers { AnswersLine self.old result }
        ensures rest { self.new ≡ record self.old { left = self.new.left } }
    {
        into.clear();
        let number = self.asked.times();
        if self.plan.failing.contains(&number) {
            return Heard::Failed;
        }
        if self.plan.quiet.contains(&number) {
            return Heard::Quiet;
        }
        self.lines.give(into)
    }
}

impl Link for MemoryLink {
    ghost left = { λ s. Some s.left };

    ghost replied = { λ s. Some s.replied };

    ghost asked = { λ s. s.asked };

    ghost faults = { λ s. s.faults };

    /// Fails exactly where the number of the call is listed as failing, else is quiet exactly where it is listed as quiet,
    /// and else is ended exactly where no line is left.
    fn line(&mut self, into: &mut ArrayVec<u8, LONGEST_LINE>) -> Heard
        ensures heard { Hears (Some self.old.left) (Some self.new.left) result into.new.items }
        ensures replied { self.new.replied ≡ self.old.replied }
        ensures asked { self.new.asked ≡ asked_again self.old.asked (heard_answer result) }
        ensures answers { AnswersLine self.old result }
        ensures rest { self.new ≡ record self.old { left = self.new.left; asked = self.new.asked; faults = self.new.faults } }
        ensures later { self.old.faults ≤ self.new.faults }
        ensures cause { result ≡ HeardFailed → Rose self.old.faults self.new.faults }
    {
        let answer = self.answer(into);
        self.asked.count_line(answer);
        if answer == Heard::Failed {
            self.faults = self.faults.saturating_add(1);
        }
        answer
    }

    /// Sends all the bytes, or none where it fails. It fails where the number of the reply is listed, and besides only where more
    /// memory is refused.
    fn reply(&mut self, bytes: &[u8]) -> Result<(), Failed>
        ensures all { OnOk result (self.new.replied ≡ self.old.replied ++ bytes.now) }
        ensures none { OnErr result (self.new.replied ≡ self.old.replied) }
        ensures front { AppendsFront (Some self.old.replied) (Some self.new.replied) bytes.now }
        ensures fails { Contains self.old.refusing self.old.replies → IsErr result }
        ensures rest { self.new ≡ record self.old { replied = self.new.replied; replies = one_more self.old.replies; faults = self.new.faults } }
        ensures left { self.new.left ≡ self.old.left }
        ensures asked { self.new.asked ≡ self.old.asked }
        ensures cause { HasCause self.old.faults self.new.faults result }
    {
        let number = self.replies;
        self.replies = self.replies.saturating_add(1);
        let refused = self.plan.refusing.contains(&number);
        if refused || self.replied.extend_from_slice(bytes).is_err() {
            self.faults = self.faults.saturating_add(1);
            return Err(Failed);
        }
        Ok(())
    }
}
