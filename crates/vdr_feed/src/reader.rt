// The reader of a feed: its header, and then one item after another.
//
// `header` reads eight bytes at most, also where it refuses. A reader keeps the memory into which it reads a body,
// so that none is filled with zeros for each item. A negative stamp is read as a number from 2^63 on, and refused.
ghost use Rattle.std.specs.Prelude.{◌≡◌, ◌≢◌, ◌≤◌, ◌<◌, ◌^◌, true, false, None, Some, Err, ℕ, List, length, take, IfOk, IfErr, OnOk, IsErrOf};
ghost use Rattle.std.specs.Io.KnownBytes.{Consumes};
ghost use Rattle.vdr_feed.specs.Failing.{HasReadCause, ReadsPart};
ghost use Rattle.vdr_outside.specs.Filling.{ReadsFewer};
ghost use Rattle.vdr_feed.specs.Feed.{feed_header, fault_of};
ghost use Rattle.vdr_feed.specs.declared.fault.FeedFault.{FeedFault as Stopped};
ghost use Rattle.vdr_feed.specs.declared.fault.FeedFault.TheVariants.{Fault};

use crate::fault::ItemRefused;
use crate::head::read_header;
use crate::next::read_item;
use crate::{FeedFault, Item};
use std::marker::Model;
use vdr_outside::{LONGEST_TAKEN, Source};

/// The greatest number of items of a feed that the recorder's programs read.
pub const LONGEST_FEED: u64 = 4_294_967_295;

/// Reads a feed from a source, an item at a time.
#[derive(Drop)]
pub struct FeedReader {
    limit: u64,
    count: u64,
    floor: u64,
    offset: u64,
    begun: bool,
    stopped: Option<FeedFault>,
    // Where a body is read. It takes no part in what the reader is.
    scratch: [u8; LONGEST_TAKEN],
}

impl Model for FeedReader {
    ghost use Rattle.std.specs.Prelude.{◌≤◌, ◌<◌, ◌+◌, ◌*◌, ◌^◌};
    ghost use Rattle.vdr_feed.specs.Reader.{Reading};

    ghost Value = { Reading };

    ghost view = { λ r. record { limit = r.limit; count = r.count; floor = r.floor; offset = r.offset; begun = r.begun; stopped = r.stopped } };

    ghost invariant = { λ r. (r.limit < 2 ^ 32) × (r.count ≤ r.limit) × (r.offset ≤ 8 + 65_554 * r.count) };
}

impl FeedReader {
    ghost use Rattle.vdr_feed.specs.Reader.{new_reading, begun_reading, stopped_by, GivesItem, IfKnown, IfRefused};

    /// A reader that gives at most so many items.
    pub fn new(limit: u64) -> FeedReader
        requires { limit < 2 ^ 32 }
        ensures { result ≡ new_reading limit }
    {
        FeedReader {
            limit,
            count: 0,
            floor: 0,
            offset: 0,
            begun: false,
            stopped: None,
            scratch: [0; LONGEST_TAKEN],
        }
    }

    /// Where the next item begins, in bytes from the beginning of the feed. 0 where the header was not read.
    pub fn offset(&self) -> u64
        ensures { result ≡ self.now.offset }
    {
        self.offset
    }

    /// Reads the header of the feed, eight bytes at most. Refused with the number 1 at offset 0 where the first eight bytes
    /// are not `VDRFEED1`. After a fault fewer than eight were read. Nothing was called on the reader before.
    pub fn header<I: Source>(&mut self, input: &mut I) -> Result<(), FeedFault>
        requires { self.old ≡ new_reading self.old.limit }
        ensures bytes { OnOk result (Consumes (I.left input.old) (I.left input.new) feed_header) }
        ensures ready { OnOk result (self.new ≡ begun_reading self.old.limit) }
        ensures refused { IfRefused result (λ number offset. (number ≡ 1) × (offset ≡ 0)
            × IfKnown (I.left input.old) (λ bytes. take 8 bytes ≢ feed_header)) }
        ensures front { IfRefused result (λ _ _. (front : List ℕ) × (length front ≤ 8) × Consumes (I.left input.old) (I.left input.new) front) }
        ensures stays { IfErr result (λ e. self.new ≡ stopped_by self.old e) }
        ensures short { IsErrOf result Fault → ReadsFewer 8 (I.left input.old) (I.left input.new) }
        ensures cause { HasReadCause None (I.faults input.old) (I.faults input.new) result }
    {
        self.begun = true;
        match read_header(input) {
            Ok(true) => {
                self.offset = 8;
                Ok(())
            }
            Ok(false) => {
                let refused = FeedFault::Refused {
                    number: 1,
                    offset: 0,
                };
                self.stopped = Some(refused);
                Err(refused)
            }
            Err(_) => {
                self.stopped = Some(FeedFault::Fault);
                Err(FeedFault::Fault)
            }
        }
    }

    /// Reads the next item, and answers false, with `into` as it was, at the end of the input. Of a body of more than 1,473
    /// bytes the first 1,473 are kept and all are read. Refused at the offset of the item's first byte: 6 where there are
    /// more items than the limit, 2 where the input ends inside the item, 3 where `received` is not below 2^48 or the stamp
    /// is outside 0 to 253,402,300,799,999, 4 where the group is above 15, 5 where `received` is below that of the item
    /// before; in the order 6, 2 (of the 19 bytes before the body), 3, 4, 5, 2 (of the body).
    /// The header was asked for. As the source fails, what was read of the item is a part of it. After a fault or a refusal it answers
    /// the same again and reads nothing.
    pub fn item<I: Source>(&mut self, input: &mut I, into: &mut Item) -> Result<bool, FeedFault>
        requires { self.old.begun ≡ true }
        ensures gave { IfOk result (λ more. (self.old.stopped ≡ None)
            × GivesItem (I.left input.old) (I.left input.new) self.old self.new into.new more) }
        ensures kept { IfOk result (λ more. more ≡ false → into.new ≡ into.old) }
        ensures refused { self.old.stopped ≡ None → IfRefused result (λ number offset. (offset ≡ self.old.offset)
            × IfKnown (I.left input.old) (λ bytes. fault_of self.old.limit self.old.count self.old.floor bytes ≡ Some number)) }
        ensures stays { IfErr result (λ e. self.new ≡ stopped_by self.old e) }
        ensures again { (e : Stopped) → self.old.stopped ≡ Some e → (result ≡ Err e) × (input.new ≡ input.old) × (into.new ≡ into.old) }
        ensures part { self.old.stopped ≡ None → IsErrOf result Fault → ReadsPart self.old.limit self.old.count self.old.floor (I.left input.old) (I.left input.new) }
        ensures cause { HasReadCause self.old.stopped (I.faults input.old) (I.faults input.new) result }
    {
        if let Some(stopped) = self.stopped {
            return Err(stopped);
        }
        match read_item(
            self.limit,
            self.count,
            self.floor,
            input,
            &mut self.scratch,
            into,
        ) {
            Ok(Some(len)) => {
                self.count += 1;
                self.floor = into.received;
                self.offset += 19 + len as u64;
                Ok(true)
            }
            Ok(None) => Ok(false),
            Err(ItemRefused::Illegal(number)) => {
                let refused = FeedFault::Refused {
                    number,
                    offset: self.offset,
                };
                self.stopped = Some(refused);
                Err(refused)
            }
            Err(ItemRefused::Failed) => {
                self.stopped = Some(FeedFault::Fault);
                Err(FeedFault::Fault)
            }
        }
    }
}
