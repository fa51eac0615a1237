// Telling what was recorded, over a link.
//
// The page is made in memory within the turn and goes out after it, so that the latch is not held while a peer
// reads.
ghost use Rattle.std.specs.Prelude.{◌≡◌, ◌&&◌, ℕ, List, [], false, not, length, sum};
ghost use Rattle.vdr_core.specs.Histories.{Event, Opening};
ghost use Rattle.vdr_outside.specs.Causes.{Rose};
ghost use Rattle.vdr_entry.specs.Queries.{asked};
ghost use Rattle.vdr_media.specs.Formatted.{members};
ghost use Rattle.vdr_vault.specs.Calls.{SameElsewhere};
ghost use Rattle.vdr_vault.specs.Vaults.{AreRings};
ghost use Rattle.vdr_visit.specs.Prints.{whole_text};
ghost use Rattle.vdr_visit.specs.Refusals.{lacks_channel, lacks_incident};
ghost use Rattle.vdr_control.specs.Lines.{AsksFor};
ghost use Rattle.vdr_control.specs.Orders.{PlainOrder};
ghost use Rattle.vdr_control.specs.Orders.PlainOrder.{Tell as TellOrder};
ghost use Rattle.vdr_recorder.specs.Recordings.{HasRecorded};
ghost use Rattle.vdr_recorder.specs.Watched.{IsWatched};
ghost use Rattle.vdr_teller.specs.Tellings.{query_told};
ghost use Rattle.vdr_reply.specs.Answers.{HasAnswered, HasOrderCause, LeavesRest};
ghost use Rattle.vdr_reply.specs.Orders.{AsksToTell};
ghost use Rattle.vdr_reply.specs.Texts.{IsTold, with_end};

use crate::lines::{DAMAGED, FAULT, NO_MEMORY, NOT_THERE};
use crate::page::Page;
use std::alloc::Global;
use std::convert::Infallible;
use vdr_control::Telling;
use vdr_desk::Reply;
use vdr_digest::{Digester, law_of_digests};
use vdr_entry::{Medium, Query};
use vdr_outside::Media;
use vdr_recorder::{Recorder, SourceCounter, Watch};
use vdr_teller::{Lookout, Watcher};
use vdr_terms::LAST_STAMP;
use vdr_visit::{VisitRefused, Visitor};

/// Whether a query asks for a channel that is configured and for an incident that is live, where it asks for one.
pub(crate) fn is_there(recorder: &Recorder, query: &Query) -> bool
    ensures { result ≡ not (lacks_channel (length recorder.now.vault.config.channels) query.now.channel) && not (lacks_incident recorder.now.vault.table (asked query.now).medium) }
{
    recorder.accept::<Infallible>(query).is_ok()
}

// What a visit comes to: the page with its end, or the line of a refusal.
fn of_told<R: Drop>(ended: Result<(), VisitRefused<R>>, page: Page) -> Reply
    ensures { IsTold with_end ended page.bytes.items result }
{
    match ended {
        Ok(()) => page.reply(),
        Err(VisitRefused::NoChannel | VisitRefused::NoIncident) => Reply::of_line(NOT_THERE),
        Err(VisitRefused::Fault) => Reply::of_line(FAULT),
        Err(VisitRefused::Damaged { .. }) => Reply::of_line(DAMAGED),
        Err(VisitRefused::Output | VisitRefused::Own(_)) => Reply::of_line(NO_MEMORY),
    }
}

/// Answers by what a visitor prints of the records that a query selects, on media that have not failed. A visitor stops by itself for want
/// of memory alone.
pub(crate) fn tell<M: Media, W: Watch<M>, V: Visitor>(
    alloc: Global,
    recorder: &mut Recorder,
    media: &mut M,
    watch: &mut W,
    query: &Query,
    visitor: &mut V,
) -> Reply
    requires rings { AreRings recorder.old.vault (M.disk media.old).sizes }
    requires works { recorder.old.vault.failed ≡ false }
    requires watched { IsWatched W.hears (W.seen watch.old) recorder.old (M.disk media.old) }
    ensures answered { (first : V) (order : PlainOrder) (opening : Opening) (events : List Event) (t0 : ℕ) → V.has first [] visitor.old
        → AsksToTell recorder.old.vault.config.channels opening events order (asked query.now) (whole_text (V.line first) (V.last first)) → M.tells → HasRecorded opening events t0 recorder.old (M.disk media.old)
        → HasAnswered recorder.old.vault.config.channels (Rose (sum (M.faults media.old)) (sum (M.faults media.new))) opening events t0
        order result recorder.old recorder.new (M.disk media.old) (M.disk media.new) W.hears (W.seen watch.old) (W.seen watch.new) }
    ensures rest { LeavesRest recorder.old recorder.new }
    ensures rings { AreRings recorder.new.vault (M.disk media.new).sizes }
    ensures others { M.tells → SameElsewhere members (M.disk media.old).reads (M.disk media.new).reads }
    ensures sizes { (M.disk media.new).sizes ≡ (M.disk media.old).sizes }
    ensures watched { IsWatched W.hears (W.seen watch.new) recorder.new (M.disk media.new) }
    ensures cause { HasOrderCause recorder.old.vault.failed recorder.new.vault.failed (M.faults media.old) (M.faults media.new) }
{
    if !is_there(recorder, query) {
        recorder.look_watched(media, watch);
        return Reply::of_line(NOT_THERE);
    }
    let Ok(mut page) = Page::begin(alloc) else {
        recorder.look_watched(media, watch);
        return Reply::of_line(NO_MEMORY);
    };
    let ended = recorder.visit_watched(media, watch, query, visitor, &mut page);
    of_told(ended, page)
}

// All records of which it is told.
fn query_told(medium: Medium, telling: Telling) -> Query
    ensures { asked result ≡ query_told medium telling }
{
    let mut query = Query {
        medium,
        channel: None,
        from: 0,
        to: LAST_STAMP,
    };
    if let Telling::Targets { at } = telling {
        query.to = at;
    }
    query
}

/// Answers what tells of all records of a medium, on media that have not failed. It is `FAULT 9` too where there is no memory for the table
/// that is told.
pub(crate) fn answer_tell<M: Media, W: Watch<M>>(
    alloc: Global,
    recorder: &mut Recorder,
    media: &mut M,
    watch: &mut W,
    medium: Medium,
    telling: Telling,
) -> Reply
    requires rings { AreRings recorder.old.vault (M.disk media.old).sizes }
    requires works { recorder.old.vault.failed ≡ false }
    requires watched { IsWatched W.hears (W.seen watch.old) recorder.old (M.disk media.old) }
    ensures answered { (opening : Opening) (events : List Event) (t0 : ℕ) → M.tells → HasRecorded opening events t0 recorder.old (M.disk media.old)
        → HasAnswered recorder.old.vault.config.channels (Rose (sum (M.faults media.old)) (sum (M.faults media.new))) opening events t0
        (TellOrder medium telling) result recorder.old recorder.new (M.disk media.old) (M.disk media.new) W.hears (W.seen watch.old) (W.seen watch.new) }
    ensures rest { LeavesRest recorder.old recorder.new }
    ensures rings { AreRings recorder.new.vault (M.disk media.new).sizes }
    ensures others { M.tells → SameElsewhere members (M.disk media.old).reads (M.disk media.new).reads }
    ensures sizes { (M.disk media.new).sizes ≡ (M.disk media.old).sizes }
    ensures watched { IsWatched W.hears (W.seen watch.new) recorder.new (M.disk media.new) }
    ensures cause { HasOrderCause recorder.old.vault.failed recorder.new.vault.failed (M.faults media.old) (M.faults media.new) }
{
    let query = query_told(medium, telling);
    match telling {
        Telling::Sources => {
            let mut counter = SourceCounter::new(alloc);
            tell(alloc, recorder, media, watch, &query, &mut counter)
        }
        Telling::Watch => {
            let mut watcher = Watcher::new(alloc);
            tell(alloc, recorder, media, watch, &query, &mut watcher)
        }
        Telling::Targets { .. } => {
            let mut lookout = Lookout::new(alloc);
            tell(alloc, recorder, media, watch, &query, &mut lookout)
        }
        Telling::Digest => {
            law_of_digests();
            let mut digester = Digester::new();
            tell(alloc, recorder, media, watch, &query, &mut digester)
        }
    }
}
