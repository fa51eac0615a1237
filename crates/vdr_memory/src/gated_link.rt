// A link in memory that asks for the status until a reply begins as it waits for, and then sets a flag.
//
// It waits for a reply that begins with given bytes and not for a number, so that no number is read back.
ghost use Rattle.std.specs.Prelude.{◌≡◌, ◌≤◌, ◌⊎◌, ◌++◌, ◌↔◌, None, IsTrue, IsOk, codes, length, take, []};
ghost use Rattle.vdr_outside.specs.Calls.{asked_again};
ghost use Rattle.vdr_outside.specs.Causes.{HasCause, Rose};
ghost use Rattle.vdr_outside.specs.Hears.{Hears, heard_answer};
ghost use Rattle.vdr_outside.specs.declared.link.Heard.TheVariants.{Line, Ended, Failed as HeardFailed};
ghost use Rattle.vdr_memory.specs.Links.{Begins};
ghost use Rattle.vdr_memory.specs.Ports.{never_asked};

use crate::Flag;
use crate::asked::Asked;
use arrayvec::ArrayVec;
use std::marker::Model;
use std::thread;
use std::time::{Clock, Duration};
use vdr_outside::{Failed, Heard, LONGEST_LINE, Link};

/// How many milliseconds it waits between two lines.
const WAIT: u64 = 1;

/// How many bytes of a reply it looks at.
const FRONT: usize = 64;

/// A link that asks for the status again and again, a millisecond apart, until a reply begins as it is told to wait for, such as with
/// `OK records 2 `. Then it sets a flag, and ends. It never fails.
#[derive(Drop)]
pub struct GatedLink<C: Clock> {
    clock: C,
    awaited: Vec<u8>,
    flag: Flag,
    answer: ArrayVec<u8, FRONT>,
    asked: Asked,
}

impl<C: Clock> Model for GatedLink<C> {
    ghost use Rattle.vdr_memory.specs.Links.{GatedLinkInMemory};

    ghost Value = { GatedLinkInMemory };

    ghost view = { λ s. record { awaited = s.awaited.items; answer = s.answer.items; asked = s.asked } };
}

impl<C: Clock> GatedLink<C> {
    /// A link that waits for a reply that begins with these bytes, of which there are at most 64, and then sets the flag.
    pub fn new(clock: C, awaited: Vec<u8>, flag: Flag) -> GatedLink<C>
        requires { length awaited.items ≤ FRONT }
        ensures { result ≡ record { awaited = awaited.items; answer = []; asked = never_asked } }
    {
        GatedLink {
            clock,
            awaited,
            flag,
            answer: ArrayVec::new(),
            asked: Asked::new(),
        }
    }

    /// How many calls for a line were made, up to the greatest u64.
    pub fn calls(&self) -> u64
        ensures { result ≡ self.now.asked.times }
    {
        self.asked.times()
    }

    // Whether the reply to the last line begins as it has to.
    fn is_answered(&self) -> bool
        ensures { IsTrue result ↔ Begins self.now.awaited self.now.answer }
    {
        begins_with(self.answer.as_slice(), self.awaited.as_slice())
    }
}

fn begins_with(text: &[u8], front: &[u8]) -> bool
    ensures { IsTrue result ↔ Begins front.now text.now }
{
    text.starts_with(front)
}

impl<C: Clock> Link for GatedLink<C> {
    ghost left = { λ _. None };

    ghost replied = { λ _. None };

    ghost asked = { λ s. s.asked };

    ghost faults = { λ s. s.asked.failures };

    /// Ends exactly where the reply to the last line begins as it has to. Else it gives the line `STATUS`, and no reply to it is known.
    fn line(&mut self, into: &mut ArrayVec<u8, LONGEST_LINE>) -> Heard
        ensures heard { Hears None None result into.new.items }
        ensures ends { (result ≡ Ended) ↔ Begins self.old.awaited self.old.answer }
        ensures asks { (result ≡ Ended) ⊎ ((result ≡ Line) × (into.new.items ≡ codes "STATUS") × (self.new.answer ≡ [])) }
        ensures kept { result ≡ Ended → self.new.answer ≡ self.old.answer }
        ensures asked { self.new.asked ≡ asked_again self.old.asked (heard_answer result) }
        ensures awaited { self.new.awaited ≡ self.old.awaited }
        ensures later { self.old.asked.failures ≤ self.new.asked.failures }
        ensures cause { result ≡ HeardFailed → Rose self.old.asked.failures self.new.asked.failures }
    {
        into.clear();
        if self.is_answered() {
            self.flag.set();
            self.asked.count_line(Heard::Ended);
            return Heard::Ended;
        }
        if self.asked.times() > 0 {
            thread::sleep(&self.clock, Duration::from_millis(WAIT));
        }
        self.answer.clear();
        let _ = into.try_extend_from_slice(b"STATUS");
        self.asked.count_line(Heard::Line);
        Heard::Line
    }

    /// Takes all the bytes, and keeps the first 64 that come after a line.
    fn reply(&mut self, bytes: &[u8]) -> Result<(), Failed>
        ensures done { IsOk result }
        ensures answer { self.new ≡ record self.old { answer = take 64 (self.old.answer ++ bytes.now) } }
        ensures asked { self.new.asked ≡ self.old.asked }
        ensures cause { HasCause self.old.asked.failures self.new.asked.failures result }
    {
        let count = bytes.len().min(self.answer.remaining_capacity());
        let _ = self.answer.try_extend_from_slice(&bytes[..count]);
        Ok(())
    }
}
