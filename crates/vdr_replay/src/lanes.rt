// What the ports of a feed gave, and what is on its way to the recorder.
//
// Memory for as many items as a batch may record, one for each 50 bytes, and a record for each 44: 4.5 MB for a batch of
// 65,536 bytes, 70 MB for the largest. An item of a strange group is refused behind all that the reader refuses, at its
// own offset.
ghost use Rattle.std.specs.Prelude.{◌≡◌, ◌≤◌, ◌<◌, ◌↔◌, ◌^◌, ◌∷◌, ◌++◌, ℕ, List, [], true, false, length, Some, IfOk, OnOk, OnErr};
ghost use Rattle.vdr_terms.specs.Datagrams.{verdict, is_yes};
ghost use Rattle.vdr_terms.specs.Records.{FeedItem};
ghost use Rattle.vdr_terms.specs.Rates.{Limit};
ghost use Rattle.vdr_core.specs.Histories.{Event, Opening};
ghost use Rattle.vdr_core.specs.Replay.{captured_if};
ghost use Rattle.vdr_core.specs.Taken.{Captured as CapturedTold};
ghost use Rattle.vdr_config.specs.Configuration.{IsConfiguration};
ghost use Rattle.vdr_config.specs.Sizes.{limits_in};
ghost use Rattle.vdr_feed.specs.Kept.{Holds, IsLegalItem};
ghost use Rattle.vdr_media.specs.Formatted.{members};
ghost use Rattle.vdr_vault.specs.Calls.{SameElsewhere};
ghost use Rattle.vdr_vault.specs.Openings.{HasCauseOnBoth};
ghost use Rattle.vdr_vault.specs.Vaults.{AreRings};
ghost use Rattle.vdr_feed.specs.Feed.{longest_feed};
ghost use Rattle.vdr_run.specs.Given.{pushed_as};
ghost use Rattle.vdr_run.specs.Making.{item_told};

use std::alloc::{AllocError, Global};
use vdr_config::Config;
use vdr_feed::Item;
use vdr_intake::CapturedBuffer;
use vdr_outside::{Fault, Media};
use vdr_recorder::{LEAST_DATAGRAM, Recorder, Watch};
use vdr_run::{Charges, ItemHead, Ports};
use vdr_terms::{Counts, Verdict, recordable};

/// The counts of each group's port, and the items that the next batch takes.
#[derive(Drop)]
pub(crate) struct Lanes {
    pub(crate) ports: Ports,
    pub(crate) batch: CapturedBuffer,
    // Tells how many bytes the records of the next item take.
    pub(crate) charges: Charges,
    // How many bytes the batch has left behind the records of its items, and how many one may have.
    pub(crate) left: usize,
    pub(crate) room: usize,
}

// The item as a run takes it, where its port has counted so much before it.
fn head_of(item: &Item, number: u64, missed: Counts) -> ItemHead
    requires { IsLegalItem item.now }
    ensures told { item_told result item.now.bytes.items ∷ [] ≡ pushed_as item.now (Some (number, missed)) }
    ensures group { result.group < 16 }
    ensures received { result.received < 2 ^ 48 }
{
    ItemHead {
        group: item.group,
        number,
        received: item.received,
        utc: item.utc,
        missed,
    }
}

impl Lanes {
    ghost use Rattle.vdr_run.specs.Given.{CountsFeed};
    ghost use Rattle.vdr_replay.specs.Given.{AreCharged, HasBatch, HasRoomFor, HoldsFeed, IsSized};
    ghost use Rattle.vdr_recorder.specs.Watched.{IsWatched};
    ghost use Rattle.vdr_replay.specs.Taking.{BreaksOff, HasTaken, TakesOn};

    /// Nothing was given. Memory for one batch is taken here, and none later.
    pub(crate) fn new(alloc: Global, config: &Config) -> Result<Lanes, AllocError>
        ensures legal { IsConfiguration config.now }
        ensures counts { IfOk result (λ lanes. CountsFeed [] lanes.ports) }
        ensures batch { IfOk result (λ lanes. HasBatch config.now lanes) }
        ensures charged { IfOk result (λ lanes. AreCharged (limits_in config.now.groups) [] lanes) }
        ensures empty { IfOk result (λ lanes. lanes.batch.items ≡ []) }
    {
        let room = config.batch as usize;
        Ok(Lanes {
            ports: Ports::new(),
            batch: CapturedBuffer::with_capacity(alloc, room / LEAST_DATAGRAM)?,
            charges: Charges::new(config),
            left: room,
            room,
        })
    }

    /// Takes the next item: one that is not recordable is counted, another goes to the batch.
    pub(crate) fn take(&mut self, item: &Item)
        requires legal { IsLegalItem item.now }
        requires sized { IsSized self.old }
        requires fits { (limits : ℕ → Limit) × (popped : List CapturedTold) × (feed : List FeedItem) × CountsFeed feed self.old.ports × (length feed < longest_feed)
            × AreCharged limits popped self.old × HasRoomFor limits popped feed item.now self.old }
        ensures counts { (feed : List FeedItem) (x : FeedItem) → CountsFeed feed self.old.ports → Holds item.now x
            → CountsFeed (feed ++ x ∷ []) self.new.ports }
        ensures batch { (feed : List FeedItem) (x : FeedItem) → CountsFeed feed self.old.ports → Holds item.now x
            → self.new.batch.items ≡ self.old.batch.items ++ captured_if (is_yes (verdict x.item.bytes)) feed x }
        ensures charged { (limits : ℕ → Limit) (popped : List CapturedTold) (feed : List FeedItem) → CountsFeed feed self.old.ports → AreCharged limits popped self.old
            → HasRoomFor limits popped feed item.now self.old → AreCharged limits popped self.new }
        ensures sized { IsSized self.new }
        ensures room { self.new.room ≡ self.old.room }
    {
        let Some((number, missed)) = self.ports.take(item) else {
            return;
        };
        let head = head_of(item, number, missed);
        let len = item.bytes.len() as u16;
        self.left -= self.charges.size_of(&head, len);
        self.charges.count(&head, len);
        self.batch.push(
            item.group,
            number,
            item.received,
            item.utc,
            missed,
            item.bytes.as_slice(),
        );
    }

    /// Whether the batch has room for the item's records. One that is not recordable has none.
    pub(crate) fn has_room(&self, item: &Item) -> bool
        requires legal { IsLegalItem item.now }
        requires sized { IsSized self.now }
        ensures room { (limits : ℕ → Limit) (popped : List CapturedTold) (feed : List FeedItem) → CountsFeed feed self.now.ports → AreCharged limits popped self.now
            → (result ≡ true) ↔ HasRoomFor limits popped feed item.now self.now }
        ensures small { length item.now.bytes.items ≤ 1473 }
    {
        let Verdict::Yes = recordable(item.bytes.as_slice()) else {
            return true;
        };
        let tally = self.ports.tally(item.group);
        let head = head_of(item, tally.taken(), tally.counts());
        let size = self.charges.size_of(&head, item.bytes.len() as u16);
        size <= self.left && self.batch.as_slice().len() < self.room / LEAST_DATAGRAM
    }

    /// Records what is in the batch, which is empty then.
    pub(crate) fn record<M: Media, W: Watch<M>>(
        &mut self,
        recorder: &mut Recorder,
        media: &mut M,
        watch: &mut W,
    ) -> Result<(), Fault>
        requires rings { AreRings recorder.old.vault (M.disk media.old).sizes }
        requires open { recorder.old.is_open ≡ true }
        requires works { recorder.old.vault.failed ≡ false }
        requires held { (feed : List FeedItem) × HoldsFeed recorder.old.vault.config feed self.old recorder.old.maker }
        requires watched { IsWatched W.hears (W.seen watch.old) recorder.old (M.disk media.old) }
        ensures taken { (opening : Opening) (feed : List FeedItem) (events : List Event) (t0 : ℕ) → M.tells
            → HasTaken opening feed self.old.batch.items events t0 recorder.old (M.disk media.old)
            → OnOk result (TakesOn opening feed [] events t0 recorder.new (M.disk media.old) (M.disk media.new) W.hears (W.seen watch.old) (W.seen watch.new)) }
        ensures broken { (opening : Opening) (feed : List FeedItem) (events : List Event) (t0 : ℕ) → M.tells
            → HasTaken opening feed self.old.batch.items events t0 recorder.old (M.disk media.old)
            → OnErr result (BreaksOff opening feed events t0 recorder.new (M.disk media.old) (M.disk media.new) W.hears (W.seen watch.old) (W.seen watch.new)) }
        ensures held { OnOk result ((feed : List FeedItem) → HoldsFeed recorder.old.vault.config feed self.old recorder.old.maker
            → HoldsFeed recorder.new.vault.config feed self.new recorder.new.maker) }
        ensures empty { OnOk result (self.new.batch.items ≡ []) }
        ensures left { OnOk result (self.new.left ≡ self.new.room) }
        ensures room { self.new.room ≡ self.old.room }
        ensures works { OnOk result (recorder.new.vault.failed ≡ false) }
        ensures open { recorder.new.is_open ≡ true }
        ensures config { recorder.new.vault.config ≡ recorder.old.vault.config }
        ensures rings { AreRings recorder.new.vault (M.disk media.new).sizes }
        ensures others { M.tells → SameElsewhere members (M.disk media.old).reads (M.disk media.new).reads }
        ensures sizes { (M.disk media.new).sizes ≡ (M.disk media.old).sizes }
        ensures cause { HasCauseOnBoth members (M.faults media.old) (M.faults media.new) result }
        ensures watched { IsWatched W.hears (W.seen watch.new) recorder.new (M.disk media.new) }
    {
        recorder.take_batch_watched(media, watch, self.batch.as_slice())?;
        self.batch.clear();
        self.left = self.room;
        Ok(())
    }
}
