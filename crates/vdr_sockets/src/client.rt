// One peer of the link: what came of it, and how long it may be silent.
ghost use Rattle.std.specs.Prelude.{◌≡◌, ◌≢◌, None, IfSome};
ghost use Rattle.vdr_outside.specs.Calls.{other};
ghost use Rattle.vdr_outside.specs.Hears.{Hears, heard_answer};
ghost use Rattle.vdr_outside.specs.declared.link.Heard.TheVariants.{Failed};

use crate::hosts::Peer;
use crate::pending::Pending;
use crate::udp::is_no_fault;
use arrayvec::ArrayVec;
use std::time::Duration;
use vdr_outside::{Heard, LONGEST_LINE};

/// How long a peer may take to end a line that it has begun, in seconds.
const LINE: u64 = 5;

/// How long a peer may say nothing, in seconds.
const SILENCE: u64 = 600;

/// A peer, and what came of it and was not given as a line yet. Times are readings of the monotonic clock.
#[derive(Drop)]
pub(crate) struct Client<P: Peer + Drop> {
    pub(crate) peer: P,
    pending: Pending,
    // When it last sent bytes, or connected.
    pub(crate) said: Duration,
    // When it began the line that it has not ended.
    began: Option<Duration>,
}

impl<P: Peer + Drop> Client<P> {
    /// A peer that has connected now.
    pub(crate) fn new(peer: P, now: Duration) -> Client<P> {
        Client {
            peer,
            pending: Pending::new(),
            said: now,
            began: None,
        }
    }

    /// The next line of this peer, if one is there or comes at once. None where the peer hung up or kept the link waiting too long.
    pub(crate) fn hear(
        &mut self,
        into: &mut ArrayVec<u8, LONGEST_LINE>,
        now: Duration,
    ) -> Option<Heard>
        ensures heard { IfSome result (λ heard. Hears None None heard into.new.items) }
        ensures going_on { IfSome result (λ heard. heard_answer heard ≡ other) }
        ensures not_failed { IfSome result (λ heard. heard ≢ Failed) }
    {
        let heard = self.next_line(into, now);
        if heard != Heard::Quiet {
            return Some(heard);
        }
        if !self.receive(now) {
            return None;
        }
        let heard = self.next_line(into, now);
        if heard == Heard::Quiet && self.is_late(now) {
            return None;
        }
        Some(heard)
    }

    // The next line that is whole. What is left behind it is a line that is begun now.
    fn next_line(&mut self, into: &mut ArrayVec<u8, LONGEST_LINE>, now: Duration) -> Heard
        ensures heard { Hears None None result into.new.items }
        ensures going_on { heard_answer result ≡ other }
        ensures not_failed { result ≢ Failed }
    {
        let heard = self.pending.line(into);
        if self.pending.is_empty() {
            self.began = None;
        } else if heard != Heard::Quiet || self.began.is_none() {
            self.began = Some(now);
        }
        heard
    }

    // Takes what has come, and tells whether the peer is still there.
    fn receive(&mut self, now: Duration) -> bool {
        let mut piece = [0; LONGEST_LINE];
        match self.peer.read(&mut piece) {
            Ok(0) => false,
            Ok(count) => {
                self.pending.push(&piece[..count]);
                self.said = now;
                true
            }
            Err(error) => is_no_fault(&error),
        }
    }

    // Whether it has kept the link waiting too long, for the end of a line or for a word.
    fn is_late(&self, now: Duration) -> bool {
        let for_line = match self.began {
            Some(began) => now.saturating_sub(began).as_secs() >= LINE,
            None => false,
        };
        for_line || now.saturating_sub(self.said).as_secs() >= SILENCE
    }
}
