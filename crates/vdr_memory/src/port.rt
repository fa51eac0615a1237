// A port in memory: it gives its datagrams, and fails and is quiet where it is told to.
ghost use Rattle.std.specs.Prelude.{◌≡◌, ◌≢◌, ◌≤◌, ◌↔◌, [], Contains};
ghost use Rattle.vdr_outside.specs.Calls.{asked_again};
ghost use Rattle.vdr_outside.specs.Causes.{Rose};
ghost use Rattle.vdr_outside.specs.Takes.{Takes, answer_of};
ghost use Rattle.vdr_outside.specs.declared.port.Taken.TheVariants.{Quiet, Ended, Failed};
ghost use Rattle.vdr_memory.specs.Ports.{Answers, NeverFalls, never_asked, standing_of};

use crate::PortItem;
use crate::asked::Asked;
use crate::datagrams::Datagrams;
use arrayvec::ArrayVec;
use std::marker::Model;
use vdr_outside::{LONGEST_TAKEN, Port, Taken};

/// A port over a list of datagrams. It fails and is quiet at the calls that it is told.
#[derive(Drop)]
pub struct MemoryPort {
    datagrams: Datagrams,
    failing: Vec<u64>,
    quiet: Vec<u64>,
    asked: Asked,
}

impl Model for MemoryPort {
    ghost use Rattle.vdr_memory.specs.Ports.{PortInMemory};

    ghost Value = { PortInMemory };

    ghost view = { λ s. record { datagrams = s.datagrams; failing = s.failing.items; quiet = s.quiet.items; asked = s.asked } };
}

impl MemoryPort {
    /// A port that gives these items in their order, in which `received` never falls. The calls of the first numbers fail,
    /// counted from 0, and those of the others find none in time.
    pub fn new(items: Vec<PortItem>, failing: Vec<u64>, quiet: Vec<u64>) -> MemoryPort
        requires { NeverFalls 0 items.items }
        ensures { result ≡ record { datagrams = record { left = items.items; taken = []; floor = 0 }; failing = failing.items; quiet = quiet.items; asked = never_asked } }
    {
        MemoryPort {
            datagrams: Datagrams::new(items),
            failing,
            quiet,
            asked: Asked::new(),
        }
    }

    /// The items not yet given.
    pub fn left(&self) -> &[PortItem]
        ensures { result.now ≡ self.now.datagrams.left }
    {
        self.datagrams.left()
    }

    /// How many takes were made, up to the greatest u64.
    pub fn takes(&self) -> u64
        ensures { result ≡ self.now.asked.times }
    {
        self.asked.times()
    }

    /// How many takes failed, up to the greatest u64.
    pub fn faults(&self) -> u64
        ensures { result ≡ self.now.asked.failures }
    {
        self.asked.failures()
    }

    // Answers a take that is not counted yet.
    fn answer(&mut self, into: &mut ArrayVec<u8, LONGEST_TAKEN>) -> Taken
        ensures took { Takes (standing_of self.old.datagrams) (standing_of self.new.datagrams) result into.new.items }
        ensures answers { Answers self.old result }
        ensures rest { self.new ≡ record self.old { datagrams = self.new.datagrams } }
    {
        into.clear();
        let number = self.asked.times();
        if self.failing.contains(&number) {
            return Taken::Failed;
        }
        if self.quiet.contains(&number) {
            return Taken::Quiet;
        }
        self.datagrams.give(into)
    }
}

impl Port for MemoryPort {
    ghost use Rattle.vdr_memory.specs.Ports.{standing_of};

    ghost standing = { λ s. standing_of s.datagrams };

    ghost asked = { λ s. s.asked };

    ghost faults = { λ s. s.asked.failures };

    /// Fails exactly where the number of the take is listed as failing, else is quiet exactly where it is listed as quiet,
    /// and else is ended exactly where no item is left.
    fn take(&mut self, into: &mut ArrayVec<u8, LONGEST_TAKEN>) -> Taken
        ensures took { Takes (standing_of self.old.datagrams) (standing_of self.new.datagrams) result into.new.items }
        ensures answers { Answers self.old result }
        ensures rest { self.new ≡ record self.old { datagrams = self.new.datagrams; asked = asked_again self.old.asked (answer_of result) } }
        ensures later { self.old.asked.failures ≤ self.new.asked.failures }
        ensures cause { result ≡ Failed → Rose self.old.asked.failures self.new.asked.failures }
    {
        let answer = self.answer(into);
        self.asked.count(answer);
        answer
    }
}
