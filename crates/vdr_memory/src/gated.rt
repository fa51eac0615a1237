// A port in memory of which the datagrams wait behind a gate.
ghost use Rattle.std.specs.Prelude.{◌≡◌, ◌≢◌, ◌≤◌, ◌<◌, ◌↔◌, [], length, Contains};
ghost use Rattle.vdr_outside.specs.Calls.{asked_again};
ghost use Rattle.vdr_outside.specs.Causes.{Rose};
ghost use Rattle.vdr_outside.specs.Takes.{Takes, answer_of};
ghost use Rattle.vdr_outside.specs.declared.port.Taken.TheVariants.{Quiet, Ended, Failed};
ghost use Rattle.vdr_memory.specs.Ports.{NeverFalls, never_asked, standing_of};

use crate::asked::Asked;
use crate::datagrams::Datagrams;
use crate::{Flag, PortItem};
use arrayvec::ArrayVec;
use std::marker::Model;
use std::thread;
use std::time::{Clock, Duration};
use vdr_outside::{LONGEST_TAKEN, Port, Taken};

/// How many milliseconds it waits where it is quiet.
const WAIT: u64 = 1;

/// A port over a list of datagrams that wait behind a gate. Until the gate's flag is set, a take finds none and waits a
/// millisecond. It never fails.
#[derive(Drop)]
pub struct GatedPort<C: Clock> {
    clock: C,
    datagrams: Datagrams,
    // How many are given before the gate is open, and the flag that is set after the last of these.
    at_once: usize,
    then: Option<Flag>,
    gate: Flag,
    asked: Asked,
}

impl<C: Clock> Model for GatedPort<C> {
    ghost use Rattle.vdr_memory.specs.Ports.{GatedInMemory};

    ghost Value = { GatedInMemory };

    ghost view = { λ s. record { datagrams = s.datagrams; at_once = s.at_once; asked = s.asked } };
}

impl<C: Clock> GatedPort<C> {
    /// A port that gives these items once the flag is set, in their order, in which `received` never falls.
    pub fn new(clock: C, items: Vec<PortItem>, gate: Flag) -> GatedPort<C>
        requires { NeverFalls 0 items.items }
        ensures { result ≡ record { datagrams = record { left = items.items; taken = []; floor = 0 }; at_once = 0; asked = never_asked } }
    {
        GatedPort {
            clock,
            datagrams: Datagrams::new(items),
            at_once: 0,
            then: None,
            gate,
            asked: Asked::new(),
        }
    }

    // A port that gives the first item at once, and then sets a flag.
    pub(crate) fn meeting(clock: C, items: Vec<PortItem>, then: Flag, gate: Flag) -> GatedPort<C>
        requires { NeverFalls 0 items.items }
        ensures { result ≡ record { datagrams = record { left = items.items; taken = []; floor = 0 }; at_once = 1; asked = never_asked } }
    {
        GatedPort {
            clock,
            datagrams: Datagrams::new(items),
            at_once: 1,
            then: Some(then),
            gate,
            asked: Asked::new(),
        }
    }

    /// The items not yet given.
    pub fn left(&self) -> &[PortItem]
        ensures { result.now ≡ self.now.datagrams.left }
    {
        self.datagrams.left()
    }

    /// How many takes were made, up to the greatest u64.
    pub fn takes(&self) -> u64
        ensures { result ≡ self.now.asked.times }
    {
        self.asked.times()
    }

    // Answers a take that is not counted yet.
    fn answer(&mut self, into: &mut ArrayVec<u8, LONGEST_TAKEN>) -> Taken
        ensures took { Takes (standing_of self.old.datagrams) (standing_of self.new.datagrams) result into.new.items }
        ensures quiet { result ≡ Quiet → self.old.at_once ≤ length self.old.datagrams.taken }
        ensures ended { result ≡ Ended → self.old.datagrams.left ≡ [] }
        ensures never_fails { result ≢ Failed }
        ensures rest { self.new ≡ record self.old { datagrams = self.new.datagrams } }
    {
        into.clear();
        if self.datagrams.given() >= self.at_once && !self.gate.is_set() {
            thread::sleep(&self.clock, Duration::from_millis(WAIT));
            return Taken::Quiet;
        }
        let answer = self.datagrams.give(into);
        if let Some(flag) = &self.then
            && self.datagrams.given() == self.at_once
        {
            flag.set();
        }
        answer
    }
}

impl<C: Clock> Port for GatedPort<C> {
    ghost use Rattle.vdr_memory.specs.Ports.{standing_of};

    ghost standing = { λ s. standing_of s.datagrams };

    ghost asked = { λ s. s.asked };

    ghost faults = { λ s. s.asked.failures };

    /// It is quiet only once it gave those that it gives at once, and ended only where no item is left.
    fn take(&mut self, into: &mut ArrayVec<u8, LONGEST_TAKEN>) -> Taken
        ensures took { Takes (standing_of self.old.datagrams) (standing_of self.new.datagrams) result into.new.items }
        ensures quiet { result ≡ Quiet → self.old.at_once ≤ length self.old.datagrams.taken }
        ensures ended { result ≡ Ended → self.old.datagrams.left ≡ [] }
        ensures never_fails { result ≢ Failed }
        ensures rest { self.new ≡ record self.old { datagrams = self.new.datagrams; asked = asked_again self.old.asked (answer_of result) } }
        ensures later { self.old.asked.failures ≤ self.new.asked.failures }
        ensures cause { result ≡ Failed → Rose self.old.asked.failures self.new.asked.failures }
    {
        let answer = self.answer(into);
        self.asked.count(answer);
        answer
    }
}
