// The datagrams that a port in memory has to give.
ghost use Rattle.std.specs.Prelude.{◌≡◌, ◌≢◌, ◌↔◌, [], length};
ghost use Rattle.vdr_outside.specs.Takes.{Takes};
ghost use Rattle.vdr_outside.specs.declared.port.Taken.TheVariants.{Quiet, Ended, Failed};
ghost use Rattle.vdr_memory.specs.Ports.{NeverFalls, standing_of};

use crate::PortItem;
use arrayvec::ArrayVec;
use std::marker::Model;
use vdr_outside::{LONGEST_TAKEN, Taken};

#[derive(Drop)]
pub(crate) struct Datagrams {
    items: Vec<PortItem>,
    given: usize,
    // The `received` of the last one.
    floor: u64,
}

impl Model for Datagrams {
    ghost use Rattle.std.specs.Prelude.{◌≤◌, length, drop, map, take};
    ghost use Rattle.vdr_outside.specs.Takes.{cut};
    ghost use Rattle.vdr_memory.specs.Ports.{DatagramsInMemory, NeverFalls};

    ghost Value = { DatagramsInMemory };

    ghost view = { λ s. record { left = drop s.given s.items.items; taken = map cut (take s.given s.items.items); floor = s.floor } };

    ghost invariant = { λ s. (s.given ≤ length s.items.items) × NeverFalls s.floor (drop s.given s.items.items) };
}

impl Datagrams {
    pub(crate) fn new(items: Vec<PortItem>) -> Datagrams
        requires { NeverFalls 0 items.items }
        ensures { result ≡ record { left = items.items; taken = []; floor = 0 } }
    {
        Datagrams {
            items,
            given: 0,
            floor: 0,
        }
    }

    // Those that are not given yet.
    pub(crate) fn left(&self) -> &[PortItem]
        ensures { result.now ≡ self.now.left }
    {
        &self.items[self.given..]
    }

    // How many were given.
    pub(crate) fn given(&self) -> usize
        ensures { result ≡ length self.now.taken }
    {
        self.given
    }

    // Gives the next one, if any is left.
    pub(crate) fn give(&mut self, into: &mut ArrayVec<u8, LONGEST_TAKEN>) -> Taken
        ensures took { Takes (standing_of self.old) (standing_of self.new) result into.new.items }
        ensures ended { (result ≡ Ended) ↔ (self.old.left ≡ []) }
        ensures not_quiet { result ≢ Quiet }
        ensures not_failed { result ≢ Failed }
    {
        into.clear();
        if self.given == self.items.len() {
            return Taken::Ended;
        }
        let item = &self.items[self.given];
        let (received, utc) = (item.received, item.utc);
        let count = item.bytes.len().min(LONGEST_TAKEN);
        let _ = into.try_extend_from_slice(&item.bytes[..count]);
        self.given += 1;
        self.floor = received;
        Taken::Datagram { received, utc }
    }
}
