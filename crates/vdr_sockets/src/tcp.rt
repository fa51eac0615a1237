// The link of an operator over TCP, up to eight connections at once.
ghost use Rattle.std.specs.Prelude.{◌≡◌, ◌≢◌, ℕ, List, None, OnOk};
ghost use Rattle.std.specs.Io.KnownBytes.{Appends};
ghost use Rattle.vdr_outside.specs.Calls.{other};
ghost use Rattle.vdr_outside.specs.Causes.{HasCause};
ghost use Rattle.vdr_outside.specs.Told.{Stays};
ghost use Rattle.vdr_outside.specs.Writes.{AppendsFront};
ghost use Rattle.vdr_sockets.specs.Peers.{SendsAll};
ghost use Rattle.vdr_outside.specs.Hears.{Hears, heard_answer};
ghost use Rattle.vdr_outside.specs.declared.link.Heard.TheVariants.{Failed as HeardFailed};
ghost use Rattle.vdr_sockets.specs.Sockets.{ListensAt};

use crate::alarm::Alarm;
use crate::calls::Calls;
use crate::hosts::HasStreams;
use crate::peers::Peers;
use arrayvec::ArrayVec;
use std::time::{Clock, Duration};
use std::{io, thread};
use vdr_outside::{Failed, Heard, LONGEST_LINE, Link};

/// The port on which an operator's orders come.
pub const ORDERS: u16 = 61_450;

/// This host's own address, which no other host reaches (RFC 1122).
pub const LOOPBACK: [u8; 4] = [127, 0, 0, 1];

/// The line that ends the recording. It is no order, and no event of the history: ports and links end as where a medium has failed.
const STOP: &[u8] = b"STOP";

/// How often a call for a line looks for one.
const LOOKS: u64 = 10;

/// How long it sleeps between two looks, in milliseconds.
pub(crate) const LOOK: u64 = 5;

/// A link over TCP on this host's own address 127.0.0.1, up to eight connections at once. It listens from the first call on. Where
/// it can't listen, that is told on the standard error, and counted. It tells no content.
///
/// A line is given as soon as it is whole, from each peer in turn, and the reply goes to the peer that sent it. A peer that hangs
/// up loses what it did not end with LF, and its reply. It is hung up on where it began a line and did not end it for five seconds,
/// kept a reply waiting for four fifths of a second, or said nothing for ten minutes. Where a ninth peer comes the one that said
/// nothing for longest is hung up on. Once its alarm is raised the link has ended. The line `STOP` is answered `OK` by the link itself,
/// which raises the alarm.
#[derive(Drop)]
pub struct TcpLink<'a, R: HasStreams + AllocGlobal + Clock + Eprint + Drop> {
    rt: R,
    alarm: Option<&'a Alarm>,
    number: u16,
    listener: Option<R::Incoming>,
    peers: Peers<R::Peer>,
    calls: Calls,
    faults: u64,
    ghost local: { ListensAt R.listens listener number },
}

impl<'a, R: HasStreams + AllocGlobal + Clock + Eprint + Drop> TcpLink<'a, R> {
    /// The link on the port of orders.
    pub fn new(rt: R) -> TcpLink<'a, R>
        ensures { result.number ≡ 61450 }
    {
        TcpLink::with_number(rt, ORDERS)
    }

    /// A link on the port of this number.
    pub fn with_number(rt: R, number: u16) -> TcpLink<'a, R>
        ensures { result.number ≡ number }
    {
        let peers = Peers::new(rt.alloc());
        TcpLink {
            rt,
            alarm: None,
            number,
            listener: None,
            peers,
            calls: Calls::new(),
            faults: 0,
        }
    }

    /// The same link, which ends once the alarm is raised.
    pub fn until(mut self, alarm: &'a Alarm) -> TcpLink<'a, R>
        ensures { result.number ≡ self.entry.number }
    {
        self.alarm = Some(alarm);
        self
    }

    // Whether the alarm is raised.
    fn is_over(&self) -> bool {
        self.alarm.is_some_and(Alarm::is_raised)
    }

    // Listens, if that was not done yet, with all the memory that it needs.
    fn listen(&mut self) -> io::Result<()>
        ensures calls { self.new.calls ≡ self.old.calls }
        ensures faults { self.new.faults ≡ self.old.faults }
    {
        if self.listener.is_none() {
            self.peers.reserve()?;
            self.listener = Some(self.rt.listen(LOOPBACK, self.number)?);
        }
        Ok(())
    }

    // The next line that is there, or that comes in time.
    fn next_line(&mut self, into: &mut ArrayVec<u8, LONGEST_LINE>) -> Heard
        ensures heard { Hears None None result into.new.items }
        ensures going_on { heard_answer result ≡ other }
        ensures not_failed { result ≢ HeardFailed }
        ensures calls { self.new.calls ≡ self.old.calls }
        ensures faults { self.new.faults ≡ self.old.faults }
    {
        into.clear();
        match &self.listener {
            Some(listener) => wait_for_line(&self.rt, listener, &mut self.peers, into),
            None => Heard::Quiet,
        }
    }

    // What is heard of a line: one that ends the recording is answered here, and given to nobody.
    fn unless_stop(&mut self, heard: Heard, into: &mut ArrayVec<u8, LONGEST_LINE>) -> Heard
        requires heard { Hears None None heard into.old.items }
        requires going_on { heard_answer heard ≡ other }
        requires not_failed { heard ≢ HeardFailed }
        ensures heard { Hears None None result into.new.items }
        ensures going_on { heard_answer result ≡ other }
        ensures not_failed { result ≢ HeardFailed }
        ensures calls { self.new.calls ≡ self.old.calls }
        ensures faults { self.new.faults ≡ self.old.faults }
    {
        let Some(alarm) = self.alarm else {
            return heard;
        };
        if heard != Heard::Line || into.as_slice() != STOP {
            return heard;
        }
        self.peers.reply(&self.rt, b"OK\n");
        alarm.raise();
        into.clear();
        Heard::Quiet
    }
}

// The next line of a peer that is there, or that comes in time. Who asked before goes behind the others.
fn wait_for_line<R: HasStreams + Clock>(
    rt: &R,
    listener: &R::Incoming,
    peers: &mut Peers<R::Peer>,
    into: &mut ArrayVec<u8, LONGEST_LINE>,
) -> Heard
    ensures heard { Hears None None result into.new.items }
    ensures going_on { heard_answer result ≡ other }
    ensures not_failed { result ≢ HeardFailed }
{
    peers.end_reply();
    for _ in 0..LOOKS {
        // Where the clock can't be read no peer is late.
        let now = rt.monotonic().unwrap_or(Duration::ZERO);
        if let Ok(peer) = rt.accept(listener) {
            peers.admit(peer, now);
        }
        let heard = peers.go_round(into, now);
        if heard != Heard::Quiet {
            return heard;
        }
        thread::sleep(rt, Duration::from_millis(LOOK));
    }
    into.clear();
    Heard::Quiet
}

impl<'a, R: HasStreams + AllocGlobal + Clock + Eprint + Drop> Link for TcpLink<'a, R> {
    ghost left = { λ _. None };

    ghost replied = { λ _. None };

    ghost asked = { λ s. s.calls };

    ghost faults = { λ s. s.faults };

    fn line(&mut self, into: &mut ArrayVec<u8, LONGEST_LINE>) -> Heard {
        into.clear();
        if self.is_over() {
            self.calls.count_end();
            return Heard::Ended;
        }
        if let Err(error) = self.listen() {
            let number = self.number;
            let _ = eprintln!(self.rt; "vdr: TCP port {number}: {error}");
            self.faults = self.faults.saturating_add(1);
            self.calls.count_failure();
            return Heard::Failed;
        }
        let heard = self.next_line(into);
        let heard = self.unless_stop(heard, into);
        self.calls.count();
        heard
    }

    fn reply(&mut self, bytes: &[u8]) -> Result<(), Failed>
        // the bytes go to the peer whose line came last, and to no other
        ensures sent { SendsAll R.Peer.sent self.old.peers.asking self.new.peers.asking bytes.now }
        ensures others { self.new.peers.others ≡ self.old.peers.others }
        ensures all { OnOk result (Appends None None bytes.now) }
        ensures front { AppendsFront None None bytes.now }
        ensures left { Stays {A = List ℕ} None None }
        ensures asked { self.new.calls ≡ self.old.calls }
        ensures cause { HasCause self.old.faults self.new.faults result }
    {
        self.peers.reply(&self.rt, bytes);
        Ok(())
    }
}
