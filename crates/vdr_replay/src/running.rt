// A run over a feed, on media that were opened.
ghost use Rattle.std.specs.Prelude.{◌≡◌, ◌≤◌, ◌<◌, ℕ, List, [], true, false, Option, IfOk, OnErr, OnOk};
ghost use Rattle.std.specs.Io.KnownBytes.{IsAtEnd};
ghost use Rattle.vdr_core.specs.Histories.{Opening};
ghost use Rattle.vdr_config.specs.Sizes.{limits_in};
ghost use Rattle.vdr_outside.specs.Causes.{Rose};
ghost use Rattle.vdr_media.specs.Formatted.{members};
ghost use Rattle.vdr_vault.specs.Calls.{SameElsewhere};
ghost use Rattle.vdr_vault.specs.Openings.{HasCauseOnBoth};
ghost use Rattle.vdr_vault.specs.Vaults.{AreRings};
ghost use Rattle.vdr_recorder.specs.Recordings.{HasRecorded};
ghost use Rattle.vdr_recorder.specs.Watched.{IsWatched};
ghost use Rattle.vdr_replay.specs.Answers.{HasReplayCause, RefusesRun};
ghost use Rattle.vdr_run.specs.Given.{CountsFeed};
ghost use Rattle.vdr_replay.specs.Given.{AreCharged, HasBatch, HoldsFeed};
ghost use Rattle.vdr_replay.specs.Ran.{DecidesRun, Runs, StopsIn};
ghost use Rattle.vdr_feed.specs.Progress.{HasRead};
ghost use Rattle.vdr_replay.specs.Taking.{BreaksFeed, RecordsFeed};
ghost use Rattle.vdr_replay.specs.declared.ended.FeedEnd.TheVariants.{Whole, Input};

use crate::feeding::take_all;
use crate::lanes::Lanes;
use crate::sums::sums;
use crate::{FeedEnd, ReplayRefused, Replayed};
use vdr_feed::FeedReader;
use vdr_outside::{Fault, Media, Source};
use vdr_recorder::{Recorder, Watch};

// Records the items of the feed in a run that has begun, and closes it.
fn record_items<I: Source, M: Media, W: Watch<M>>(
    recorder: &mut Recorder,
    media: &mut M,
    watch: &mut W,
    lanes: &mut Lanes,
    reader: &mut FeedReader,
    input: &mut I,
) -> Result<FeedEnd, Fault>
    requires rings { AreRings recorder.old.vault (M.disk media.old).sizes }
    requires open { recorder.old.is_open ≡ true }
    requires works { recorder.old.vault.failed ≡ false }
    requires watched { IsWatched W.hears (W.seen watch.old) recorder.old (M.disk media.old) }
    requires read { (first : Option (List ℕ)) × HasRead first (I.left input.old) reader.old [] }
    requires held { HoldsFeed recorder.old.vault.config [] lanes.old recorder.old.maker }
    requires empty { lanes.old.batch.items ≡ [] }
    ensures recorded { IfOk result (λ end. RecordsFeed (I.left input.old) reader.old (I.left input.new) end lanes.new recorder.old recorder.new (M.disk media.old) (M.disk media.new) W.hears (W.seen watch.old) (W.seen watch.new)) }
    ensures broken { OnErr result (BreaksFeed (I.left input.old) reader.old recorder.old recorder.new (M.disk media.old) (M.disk media.new) W.hears (W.seen watch.old) (W.seen watch.new)) }
    ensures whole { IfOk result (λ end. end ≡ Whole → IsAtEnd (I.left input.new)) }
    ensures failed { IfOk result (λ end. end ≡ Input → Rose (I.faults input.old) (I.faults input.new)) }
    ensures later { I.faults input.old ≤ I.faults input.new }
    ensures works { OnOk result (recorder.new.vault.failed ≡ false) }
    ensures config { recorder.new.vault.config ≡ recorder.old.vault.config }
    ensures others { M.tells → SameElsewhere members (M.disk media.old).reads (M.disk media.new).reads }
    ensures sizes { (M.disk media.new).sizes ≡ (M.disk media.old).sizes }
    ensures cause { HasCauseOnBoth members (M.faults media.old) (M.faults media.new) result }
{
    let end = take_all(recorder, media, watch, lanes, reader, input)?;
    lanes.record(recorder, media, watch)?;
    recorder.stop_watched(media, watch, &lanes.ports.rest())?;
    Ok(end)
}

/// Records the feed as one run of a recorder whose lanes are empty.
pub(crate) fn record_run<I: Source, M: Media, W: Watch<M>>(
    recorder: &mut Recorder,
    media: &mut M,
    watch: &mut W,
    lanes: &mut Lanes,
    reader: &mut FeedReader,
    input: &mut I,
) -> Result<Replayed, ReplayRefused>
    requires rings { AreRings recorder.old.vault (M.disk media.old).sizes }
    requires closed { recorder.old.is_open ≡ false }
    requires works { recorder.old.vault.failed ≡ false }
    requires watched { IsWatched W.hears (W.seen watch.old) recorder.old (M.disk media.old) }
    requires read { (first : Option (List ℕ)) × HasRead first (I.left input.old) reader.old [] }
    requires counts { CountsFeed [] lanes.old.ports }
    requires batch { HasBatch recorder.old.vault.config lanes.old }
    requires charged { AreCharged (limits_in recorder.old.vault.config.groups) [] lanes.old }
    requires empty { lanes.old.batch.items ≡ [] }
    ensures ran { (opening : Opening) (t0 : ℕ) → M.tells → HasRecorded opening [] t0 recorder.old (M.disk media.old)
        → Runs opening t0 (I.left input.old) reader.old (I.left input.new) recorder.old.vault.config.groups recorder.new (M.disk media.old) (M.disk media.new) W.hears (W.seen watch.old) (W.seen watch.new) result }
    ensures decided { DecidesRun recorder.old.vault.next_place recorder.old.vault.last (I.left input.old) reader.old (I.left input.new) recorder.old.vault.config.groups result }
    ensures unbegun { RefusesRun result → media.new ≡ media.old }
    ensures stops { StopsIn result }
    ensures whole { IfOk result (λ r. r.end ≡ Whole → IsAtEnd (I.left input.new)) }
    ensures failed { IfOk result (λ r. r.end ≡ Input → Rose (I.faults input.old) (I.faults input.new)) }
    ensures later { I.faults input.old ≤ I.faults input.new }
    ensures others { M.tells → SameElsewhere members (M.disk media.old).reads (M.disk media.new).reads }
    ensures sizes { (M.disk media.new).sizes ≡ (M.disk media.old).sizes }
    ensures cause { HasReplayCause (M.faults media.old) (M.faults media.new) result }
{
    let first = recorder.status().records;
    recorder.start_watched(media, watch)?;
    let end = record_items(recorder, media, watch, lanes, reader, input)?;
    Ok(Replayed {
        groups: sums(recorder, lanes),
        records: recorder.status().records.saturating_sub(first),
        end,
    })
}
