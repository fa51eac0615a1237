// The items of a feed, as they are read and recorded.
//
// An item whose records do not fit is in hand as it was read; the batch is recorded first, and the item is the first of the
// next. One that is not recordable has no records, and cuts no batch.
ghost use Rattle.std.specs.Prelude.{◌≡◌, ◌≤◌, ◌<◌, ◌+◌, ◌∷◌, ◌++◌, ℕ, List, [], true, false, length, Option, None, Some, IfNone, IfOk, IfSome, OnErr, OnOk};
ghost use Rattle.std.specs.Io.KnownBytes.{IsAtEnd};
ghost use Rattle.vdr_terms.specs.Rates.{Limit};
ghost use Rattle.vdr_terms.specs.Records.{FeedItem};
ghost use Rattle.vdr_core.specs.Histories.{Event, Opening};
ghost use Rattle.vdr_core.specs.Taken.{Captured as CapturedTold};
ghost use Rattle.vdr_outside.specs.Causes.{Rose};
ghost use Rattle.vdr_feed.specs.Kept.{Holds, IsLegalItem};
ghost use Rattle.vdr_feed.specs.Reader.{IfKnown, IsNext, past_item};
ghost use Rattle.vdr_media.specs.Formatted.{members};
ghost use Rattle.vdr_vault.specs.Calls.{SameElsewhere};
ghost use Rattle.vdr_vault.specs.Openings.{HasCauseOnBoth};
ghost use Rattle.vdr_vault.specs.Vaults.{AreRings};
ghost use Rattle.vdr_feed.specs.Feed.{longest_feed};
ghost use Rattle.vdr_replay.specs.Feeding.{HasRate, ReadsFeed};
ghost use Rattle.vdr_run.specs.Given.{CountsFeed};
ghost use Rattle.vdr_replay.specs.Given.{AreCharged, HasRoomFor, HoldsFeed};
ghost use Rattle.vdr_feed.specs.Progress.{HasRead};
ghost use Rattle.vdr_recorder.specs.Watched.{IsWatched};
ghost use Rattle.vdr_replay.specs.Taking.{BreaksFeed, BreaksOff, HasTaken, TakesFeed, TakesOn};
ghost use Rattle.vdr_replay.specs.declared.ended.FeedEnd.TheVariants.{Whole, Input};

use crate::FeedEnd;
use crate::lanes::Lanes;
use vdr_config::Config;
use vdr_feed::{FeedFault, FeedReader, Item};
use vdr_outside::{Fault, Media, Source};
use vdr_recorder::{Recorder, Watch};

// The number by which an item of a strange group is refused.
const STRANGE_GROUP: u8 = 4;

// Reads the next item. Where there is none of a configured group, it says why reading ends.
fn read_next<I: Source>(
    config: &Config,
    reader: &mut FeedReader,
    input: &mut I,
    into: &mut Item,
) -> Option<FeedEnd>
    requires read { (first : Option (List ℕ)) × (feed : List FeedItem) × HasRead first (I.left input.old) reader.old feed }
    ensures gave { IfNone result ((x : FeedItem)
        × IsNext (I.left input.old) (I.left input.new) reader.old.limit reader.old.count reader.old.floor into.new x
        × (reader.new ≡ past_item reader.old x) × HasRate config.now.groups x.group) }
    ensures ended { IfSome result (λ end. (first : Option (List ℕ)) (feed : List FeedItem) → HasRead first (I.left input.old) reader.old feed
        → IfKnown first (λ bytes. ReadsFeed config.now.groups bytes (I.left input.new) end feed)) }
    ensures whole { result ≡ Some Whole → IsAtEnd (I.left input.new) }
    ensures failed { result ≡ Some Input → Rose (I.faults input.old) (I.faults input.new) }
    ensures later { I.faults input.old ≤ I.faults input.new }
{
    let offset = reader.offset();
    match reader.item(input, into) {
        Ok(true) => {}
        Ok(false) => return Some(FeedEnd::Whole),
        Err(FeedFault::Fault) => return Some(FeedEnd::Input),
        Err(FeedFault::Refused { number, offset }) => {
            return Some(FeedEnd::Refused { number, offset });
        }
    }
    if config.groups[into.group as usize].is_none() {
        return Some(FeedEnd::Refused {
            number: STRANGE_GROUP,
            offset,
        });
    }
    None
}

// Records the batch, where it has no room for the item.
fn make_room<M: Media, W: Watch<M>>(
    recorder: &mut Recorder,
    media: &mut M,
    watch: &mut W,
    lanes: &mut Lanes,
    item: &Item,
) -> Result<(), Fault>
    requires rings { AreRings recorder.old.vault (M.disk media.old).sizes }
    requires open { recorder.old.is_open ≡ true }
    requires works { recorder.old.vault.failed ≡ false }
    requires watched { IsWatched W.hears (W.seen watch.old) recorder.old (M.disk media.old) }
    requires legal { IsLegalItem item.now }
    requires held { (feed : List FeedItem) × HoldsFeed recorder.old.vault.config feed lanes.old recorder.old.maker }
    ensures taken { (opening : Opening) (feed : List FeedItem) (events : List Event) (t0 : ℕ) → M.tells
        → HasTaken opening feed lanes.old.batch.items events t0 recorder.old (M.disk media.old)
        → OnOk result (TakesOn opening feed lanes.new.batch.items events t0 recorder.new (M.disk media.old) (M.disk media.new) W.hears (W.seen watch.old) (W.seen watch.new)) }
    ensures broken { (opening : Opening) (feed : List FeedItem) (events : List Event) (t0 : ℕ) → M.tells
        → HasTaken opening feed lanes.old.batch.items events t0 recorder.old (M.disk media.old)
        → OnErr result (BreaksOff opening feed events t0 recorder.new (M.disk media.old) (M.disk media.new) W.hears (W.seen watch.old) (W.seen watch.new)) }
    ensures held { OnOk result ((feed : List FeedItem) → HoldsFeed recorder.old.vault.config feed lanes.old recorder.old.maker
        → HoldsFeed recorder.new.vault.config feed lanes.new recorder.new.maker) }
    ensures room { OnOk result ((limits : ℕ → Limit) (popped : List CapturedTold) (feed : List FeedItem) → CountsFeed feed lanes.new.ports → AreCharged limits popped lanes.new
        → HasRoomFor limits popped feed item.now lanes.new) }
    ensures full { (limits : ℕ → Limit) (popped : List CapturedTold) (feed : List FeedItem) → CountsFeed feed lanes.old.ports → AreCharged limits popped lanes.old
        → HasRoomFor limits popped feed item.now lanes.old → (lanes.new ≡ lanes.old) × (media.new ≡ media.old) }
    ensures works { OnOk result (recorder.new.vault.failed ≡ false) }
    ensures open { recorder.new.is_open ≡ true }
    ensures config { recorder.new.vault.config ≡ recorder.old.vault.config }
    ensures rings { AreRings recorder.new.vault (M.disk media.new).sizes }
    ensures others { M.tells → SameElsewhere members (M.disk media.old).reads (M.disk media.new).reads }
    ensures sizes { (M.disk media.new).sizes ≡ (M.disk media.old).sizes }
    ensures cause { HasCauseOnBoth members (M.faults media.old) (M.faults media.new) result }
    ensures watched { IsWatched W.hears (W.seen watch.new) recorder.new (M.disk media.new) }
{
    if lanes.has_room(item) {
        return Ok(());
    }
    lanes.record(recorder, media, watch)
}

// Takes an item of a configured group, once the batch has room for it.
fn take_item<M: Media, W: Watch<M>>(
    recorder: &mut Recorder,
    media: &mut M,
    watch: &mut W,
    lanes: &mut Lanes,
    item: &Item,
) -> Result<(), Fault>
    requires rings { AreRings recorder.old.vault (M.disk media.old).sizes }
    requires open { recorder.old.is_open ≡ true }
    requires works { recorder.old.vault.failed ≡ false }
    requires watched { IsWatched W.hears (W.seen watch.old) recorder.old (M.disk media.old) }
    requires legal { IsLegalItem item.now }
    requires configured { HasRate recorder.old.vault.config.groups item.now.group }
    requires held { (feed : List FeedItem) × HoldsFeed recorder.old.vault.config feed lanes.old recorder.old.maker × (length feed < longest_feed) }
    ensures taken { (opening : Opening) (feed : List FeedItem) (x : FeedItem) (events : List Event) (t0 : ℕ) → M.tells → Holds item.now x
        → HoldsFeed recorder.old.vault.config feed lanes.old recorder.old.maker
        → HasTaken opening feed lanes.old.batch.items events t0 recorder.old (M.disk media.old)
        → OnOk result (TakesOn opening (feed ++ x ∷ []) lanes.new.batch.items events t0 recorder.new (M.disk media.old) (M.disk media.new) W.hears (W.seen watch.old) (W.seen watch.new)) }
    ensures broken { (opening : Opening) (feed : List FeedItem) (events : List Event) (t0 : ℕ) → M.tells
        → HasTaken opening feed lanes.old.batch.items events t0 recorder.old (M.disk media.old)
        → OnErr result (BreaksOff opening feed events t0 recorder.new (M.disk media.old) (M.disk media.new) W.hears (W.seen watch.old) (W.seen watch.new)) }
    ensures held { OnOk result ((feed : List FeedItem) (x : FeedItem) → HoldsFeed recorder.old.vault.config feed lanes.old recorder.old.maker
        → length feed < longest_feed → Holds item.now x → HoldsFeed recorder.new.vault.config (feed ++ x ∷ []) lanes.new recorder.new.maker) }
    ensures works { OnOk result (recorder.new.vault.failed ≡ false) }
    ensures open { recorder.new.is_open ≡ true }
    ensures config { recorder.new.vault.config ≡ recorder.old.vault.config }
    ensures rings { AreRings recorder.new.vault (M.disk media.new).sizes }
    ensures others { M.tells → SameElsewhere members (M.disk media.old).reads (M.disk media.new).reads }
    ensures sizes { (M.disk media.new).sizes ≡ (M.disk media.old).sizes }
    ensures cause { HasCauseOnBoth members (M.faults media.old) (M.faults media.new) result }
    ensures watched { IsWatched W.hears (W.seen watch.new) recorder.new (M.disk media.new) }
{
    make_room(recorder, media, watch, lanes, item)?;
    lanes.take(item);
    Ok(())
}

/// Takes the items of the feed, up to its end, or to what is refused or fails.
pub(crate) fn take_all<I: Source, M: Media, W: Watch<M>>(
    recorder: &mut Recorder,
    media: &mut M,
    watch: &mut W,
    lanes: &mut Lanes,
    reader: &mut FeedReader,
    input: &mut I,
) -> Result<FeedEnd, Fault>
    requires rings { AreRings recorder.old.vault (M.disk media.old).sizes }
    requires open { recorder.old.is_open ≡ true }
    requires works { recorder.old.vault.failed ≡ false }
    requires watched { IsWatched W.hears (W.seen watch.old) recorder.old (M.disk media.old) }
    requires read { (first : Option (List ℕ)) × HasRead first (I.left input.old) reader.old [] }
    requires held { HoldsFeed recorder.old.vault.config [] lanes.old recorder.old.maker }
    requires empty { lanes.old.batch.items ≡ [] }
    ensures taken { IfOk result (λ end. TakesFeed (I.left input.old) reader.old (I.left input.new) end lanes.new recorder.old recorder.new (M.disk media.old) (M.disk media.new) W.hears (W.seen watch.old) (W.seen watch.new)) }
    ensures broken { OnErr result (BreaksFeed (I.left input.old) reader.old recorder.old recorder.new (M.disk media.old) (M.disk media.new) W.hears (W.seen watch.old) (W.seen watch.new)) }
    ensures whole { IfOk result (λ end. end ≡ Whole → IsAtEnd (I.left input.new)) }
    ensures failed { IfOk result (λ end. end ≡ Input → Rose (I.faults input.old) (I.faults input.new)) }
    ensures later { I.faults input.old ≤ I.faults input.new }
    ensures works { OnOk result (recorder.new.vault.failed ≡ false) }
    ensures open { recorder.new.is_open ≡ true }
    ensures config { recorder.new.vault.config ≡ recorder.old.vault.config }
    ensures rings { AreRings recorder.new.vault (M.disk media.new).sizes }
    ensures others { M.tells → SameElsewhere members (M.disk media.old).reads (M.disk media.new).reads }
    ensures sizes { (M.disk media.new).sizes ≡ (M.disk media.old).sizes }
    ensures cause { HasCauseOnBoth members (M.faults media.old) (M.faults media.new) result }
    ensures watched { IsWatched W.hears (W.seen watch.new) recorder.new (M.disk media.new) }
{
    let mut item = Item::new();
    loop {
        if let Some(end) = read_next(recorder.config(), reader, input, &mut item) {
            return Ok(end);
        }
        take_item(recorder, media, watch, lanes, &item)?;
    }
}
