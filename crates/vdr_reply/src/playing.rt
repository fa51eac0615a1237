// Playing what was recorded, over a link: the turn of the order. It prints no record.
ghost use Rattle.std.specs.Prelude.{◌≡◌, ℕ, List, IfSome, IfNone, false, true, sum};
ghost use Rattle.vdr_core.specs.Histories.{Event, Opening};
ghost use Rattle.vdr_outside.specs.Causes.{Rose};
ghost use Rattle.vdr_entry.specs.Queries.{asked};
ghost use Rattle.vdr_media.specs.Formatted.{members};
ghost use Rattle.vdr_vault.specs.Calls.{SameElsewhere};
ghost use Rattle.vdr_vault.specs.Vaults.{AreRings};
ghost use Rattle.vdr_control.specs.Orders.PlainOrder.{Play as PlayOrder};
ghost use Rattle.vdr_recorder.specs.Recordings.{HasRecorded};
ghost use Rattle.vdr_recorder.specs.Watched.{IsWatched};
ghost use Rattle.vdr_reply.specs.Answers.{HasAnsweredSoFar, HasOrderCause, LeavesRest};
ghost use Rattle.vdr_reply.specs.Orders.{is_named, query_of};
ghost use Rattle.vdr_reply.specs.Plays.{BeginsPlay};

use crate::Rest;
use crate::lines::{DAMAGED, FAULT, NOT_THERE};
use crate::telling::is_there;
use vdr_desk::Reply;
use vdr_entry::{Medium, Query};
use vdr_outside::Media;
use vdr_recorder::{OpenPlay, Recorder, Watch};
use vdr_ring::ReadRefused;

/// The channel's name that stands for every record.
const EVERY: &[u8] = b"all";

/// What is to be played: the records of a channel, or of all where it is `all`, whose UTC stamps are from `from` to `to`, both included, in
/// milliseconds since 1970.
#[derive(Clone, Copy, Drop)]
pub(crate) struct Wanted<'a> {
    /// An incident's id is 1 to 32.
    pub medium: Medium,
    pub name: &'a [u8],
    pub from: i64,
    pub to: i64,
}

/// The query of what is wanted, None where no channel of this name is configured.
pub(crate) fn query_of(recorder: &Recorder, wanted: Wanted<'_>) -> Option<Query>
    ensures found { IfSome result (λ query. (asked query ≡ query_of recorder.now.vault.config.channels wanted.entry.medium wanted.entry.name.now wanted.entry.from wanted.entry.to)
        × (is_named recorder.now.vault.config.channels wanted.entry.name.now ≡ true)) }
    ensures none { IfNone result (is_named recorder.now.vault.config.channels wanted.entry.name.now ≡ false) }
{
    let mut query = Query {
        medium: wanted.medium,
        channel: None,
        from: wanted.from,
        to: wanted.to,
    };
    if wanted.name == EVERY {
        return Some(query);
    }
    let Some(number) = recorder.config().channel_of(wanted.name) else {
        return None;
    };
    query.channel = Some(number);
    Some(query)
}

// What the turn comes to: the first line, behind which the records come, or why there is none.
fn of_begun(begun: Result<OpenPlay, ReadRefused>) -> (Reply, Option<Rest>)
    ensures { BeginsPlay begun result.0 result.1 }
{
    match begun {
        Ok(play) => (Reply::of_line(b"OK\n"), Some(Rest { play })),
        Err(ReadRefused::Fault) => (Reply::of_line(FAULT), None),
        Err(ReadRefused::Damaged { .. }) => (Reply::of_line(DAMAGED), None),
    }
}

/// Begins to answer a play, on media that have not failed. Takes no memory.
pub(crate) fn answer_play<M: Media, W: Watch<M>>(
    recorder: &mut Recorder,
    media: &mut M,
    watch: &mut W,
    wanted: Wanted<'_>,
) -> (Reply, Option<Rest>)
    requires rings { AreRings recorder.old.vault (M.disk media.old).sizes }
    requires works { recorder.old.vault.failed ≡ false }
    requires watched { IsWatched W.hears (W.seen watch.old) recorder.old (M.disk media.old) }
    ensures answered { (opening : Opening) (events : List Event) (t0 : ℕ) → M.tells → HasRecorded opening events t0 recorder.old (M.disk media.old)
        → HasAnsweredSoFar recorder.old.vault.config.channels (Rose (sum (M.faults media.old)) (sum (M.faults media.new))) opening events t0
        (PlayOrder wanted.entry.medium wanted.entry.name.now wanted.entry.from wanted.entry.to) result.0 result.1 recorder.old recorder.new (M.disk media.old) (M.disk media.new) W.hears (W.seen watch.old) (W.seen watch.new) }
    ensures rest { LeavesRest recorder.old recorder.new }
    ensures rings { AreRings recorder.new.vault (M.disk media.new).sizes }
    ensures others { M.tells → SameElsewhere members (M.disk media.old).reads (M.disk media.new).reads }
    ensures sizes { (M.disk media.new).sizes ≡ (M.disk media.old).sizes }
    ensures watched { IsWatched W.hears (W.seen watch.new) recorder.new (M.disk media.new) }
    ensures cause { HasOrderCause recorder.old.vault.failed recorder.new.vault.failed (M.faults media.old) (M.faults media.new) }
{
    let Some(query) = query_of(recorder, wanted) else {
        recorder.look_watched(media, watch);
        return (Reply::of_line(NOT_THERE), None);
    };
    if !is_there(recorder, &query) {
        recorder.look_watched(media, watch);
        return (Reply::of_line(NOT_THERE), None);
    }
    of_begun(recorder.begin_play_watched(media, watch, &query))
}
