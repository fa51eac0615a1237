// The peers of the link.
//
// They are listened to in turn, and no call waits for one of them: who says nothing, sends a byte at a time or does not
// read its reply keeps no other one waiting.
ghost use Rattle.std.specs.Prelude.{◌≡◌, ◌≢◌, None};
ghost use Rattle.vdr_outside.specs.Calls.{other};
ghost use Rattle.vdr_outside.specs.Hears.{Hears, heard_answer};
ghost use Rattle.vdr_outside.specs.declared.link.Heard.TheVariants.{Failed};
ghost use Rattle.vdr_sockets.specs.Peers.{SendsAll};

use crate::client::Client;
use crate::hosts::Peer;
use crate::patience::Patience;
use crate::sending::send_all;
use arrayvec::ArrayVec;
use std::alloc::{AllocError, Global};
use std::time::{Clock, Duration};
use vdr_outside::{Heard, LONGEST_LINE};

/// How many there are at once.
const MOST_PEERS: usize = 8;

/// The peers of a link.
#[derive(Drop)]
pub(crate) struct Peers<P: Peer + Drop> {
    // The peer whose line came last: it gets the reply.
    asking: Option<Client<P>>,
    // The others, first the one whose turn comes next.
    others: Vec<Client<P>>,
    // What the peer that asks has left for its reply.
    patience: Patience,
}

impl<P: Peer + Drop> Peers<P> {
    /// None has come.
    pub(crate) fn new(alloc: Global) -> Peers<P> {
        Peers {
            asking: None,
            others: Vec::new(alloc),
            patience: Patience::new(),
        }
    }

    /// Takes the memory for all.
    pub(crate) fn reserve(&mut self) -> Result<(), AllocError> {
        self.others.reserve(MOST_PEERS)
    }

    /// Takes in a peer that has connected now, in the place of the one that said nothing for longest where there are too many.
    pub(crate) fn admit(&mut self, peer: P, now: Duration) {
        if self.others.len() >= MOST_PEERS {
            let found = longest_silent(&self.others);
            if found < self.others.len() {
                let _ = self.others.remove(found);
            }
        }
        let _ = self.others.push(Client::new(peer, now));
    }

    /// Nothing more is replied to the line that came last: who asked goes behind the others.
    pub(crate) fn end_reply(&mut self) {
        if let Some(client) = self.asking.take() {
            let _ = self.others.push(client);
        }
        self.patience = Patience::new();
    }

    /// The next line of a peer, if one is there: each is listened to once, in its turn, until one has a line.
    pub(crate) fn go_round(&mut self, into: &mut ArrayVec<u8, LONGEST_LINE>, now: Duration) -> Heard
        ensures heard { Hears None None result into.new.items }
        ensures going_on { heard_answer result ≡ other }
        ensures not_failed { result ≢ Failed }
    {
        for _ in 0..MOST_PEERS {
            let heard = self.take_turn(into, now);
            if heard != Heard::Quiet {
                return heard;
            }
        }
        into.clear();
        Heard::Quiet
    }

    // Listens to the peer whose turn it is. One that has a line is the one that asks, and any other one goes behind the others.
    fn take_turn(&mut self, into: &mut ArrayVec<u8, LONGEST_LINE>, now: Duration) -> Heard
        ensures heard { Hears None None result into.new.items }
        ensures going_on { heard_answer result ≡ other }
        ensures not_failed { result ≢ Failed }
    {
        into.clear();
        if self.others.is_empty() {
            return Heard::Quiet;
        }
        let mut client = self.others.remove(0);
        match client.hear(into, now) {
            None => {
                into.clear();
                Heard::Quiet
            }
            Some(Heard::Quiet) => {
                let _ = self.others.push(client);
                Heard::Quiet
            }
            Some(heard) => {
                self.asking = Some(client);
                heard
            }
        }
    }

    /// Sends the bytes to the peer whose line came last, and to no other. It gets them all, or is hung up on.
    pub(crate) fn reply(&mut self, rt: &impl Clock, bytes: &[u8])
        ensures all { SendsAll P.sent self.old.asking self.new.asking bytes.now }
        ensures others { self.new.others ≡ self.old.others }
    {
        let Some(mut client) = self.asking.take() else {
            return;
        };
        if send_all(rt, &mut client.peer, bytes, &mut self.patience) {
            self.asking = Some(client);
        }
    }
}

// Where the one stands who said nothing for longest.
fn longest_silent<P: Peer + Drop>(clients: &[Client<P>]) -> usize {
    let mut found = 0;
    let mut said = Duration::MAX;
    for (at, client) in clients.iter().enumerate() {
        if client.said < said {
            found = at;
            said = client.said;
        }
    }
    found
}
