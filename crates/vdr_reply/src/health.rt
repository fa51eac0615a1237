// How the recording fares, over a link.
//
// What the run knows of itself is a function of the history before the order; what is gauged outside is an input.
ghost use Rattle.std.specs.Prelude.{◌≡◌, ◌<◌, ℕ, List, None, false, true, slice_index_or, sum};
ghost use Rattle.vdr_core.specs.Histories.{Event, Opening};
ghost use Rattle.vdr_core.specs.RunStates.{RunState, state_left};
ghost use Rattle.vdr_core.specs.Runs.{RunStart};
ghost use Rattle.vdr_core.specs.Taken.{Captured as CapturedTold};
ghost use Rattle.vdr_outside.specs.Causes.{Rose};
ghost use Rattle.vdr_control.specs.Orders.PlainOrder.{Health as HealthOrder};
ghost use Rattle.vdr_health.specs.Runs.{account_if, run_health};
ghost use Rattle.vdr_health.specs.Tallies.{KnowsRun, Tallies, tally_of};
ghost use Rattle.vdr_recorder.specs.Making.{MakesBy};
ghost use Rattle.vdr_recorder.specs.Recordings.{HasRecorded};
ghost use Rattle.vdr_recorder.specs.Watched.{IsWatched};
ghost use Rattle.vdr_reply.specs.Answers.{HasAnswered};
ghost use Rattle.vdr_reply.specs.Orders.{health_after};
ghost use Rattle.vdr_reply.specs.Texts.{page_text};

use crate::Gauge;
use crate::lines::NOT_THERE;
use vdr_capture::GroupSums;
use vdr_config::Config;
use vdr_desk::Reply;
use vdr_health::{Gauged, GroupTally, RunTally, health_page};
use vdr_outside::Media;
use vdr_recorder::{Recorder, Watch};
use vdr_terms::{Counts, Rate};

// The rates of the groups, None for one that is not configured.
fn rates_of(config: &Config) -> [Option<Rate>; 16]
    ensures { result ≡ config.now.groups }
{
    config.groups
}

// What became of the items of a group of this rate, of which so much was tallied.
fn account_of(
    recorder: &Recorder,
    rate: Option<Rate>,
    counted: GroupTally,
    group: u8,
) -> Option<GroupSums>
    requires { group < 16 }
    ensures { (start : RunStart) (popped : List CapturedTold) → MakesBy recorder.now.vault.config start popped recorder.now.maker
        → rate ≡ slice_index_or recorder.now.vault.config.groups group None → counted ≡ tally_of group popped → result ≡ account_if start popped group }
{
    if rate.is_none() {
        return None;
    }
    let (recorded, refused) = recorder.recorded(group);
    Some(GroupSums {
        taken: counted.taken,
        recorded,
        counts: Counts {
            rate: refused,
            ..counted.missed
        },
    })
}

// What became of the items of each configured group.
fn accounts(recorder: &Recorder, tally: &RunTally) -> [Option<GroupSums>; 16]
    ensures { (start : RunStart) (popped : List CapturedTold) → MakesBy recorder.now.vault.config start popped recorder.now.maker
        → Tallies true popped tally.now → (g : ℕ) → g < 16 → slice_index_or result g None ≡ account_if start popped g }
{
    let rates = rates_of(recorder.config());
    let mut sums = [None; 16];
    for group in 0..16 {
        sums[group] = account_of(recorder, rates[group], tally.groups[group], group as u8);
    }
    sums
}

// The page of the run that is open.
fn page_of(recorder: &Recorder, tally: &RunTally, gauged: &Gauged) -> Reply
    ensures { (start : RunStart) (popped : List CapturedTold) → MakesBy recorder.now.vault.config start popped recorder.now.maker
        → Tallies true popped tally.now → result ≡ page_text (run_health start popped gauged.now) }
{
    let sums = accounts(recorder, tally);
    Reply::of_lines(health_page(&sums, tally.since(), gauged))
}

// What is told of the run, if one is open.
fn told(recorder: &Recorder, tally: &RunTally, gauged: &Gauged) -> Reply
    ensures { (run : RunState) → KnowsRun run tally.now → (run.is_open ≡ true → MakesBy recorder.now.vault.config run.start run.popped recorder.now.maker)
        → result ≡ health_after gauged.now run }
{
    if !tally.is_open() {
        return Reply::of_line(NOT_THERE);
    }
    page_of(recorder, tally, gauged)
}

/// Answers how the recording fares, on media that have not failed: `REFUSED 11` where no run is open.
pub(crate) fn answer_health<M: Media, W: Watch<M> + Gauge<M>>(
    recorder: &Recorder,
    media: &M,
    watch: &mut W,
    tally: &RunTally,
) -> Reply
    requires works { recorder.now.vault.failed ≡ false }
    requires watched { IsWatched W.hears (W.seen watch.old) recorder.now (M.disk media.now) }
    ensures answered { (opening : Opening) (events : List Event) (t0 : ℕ) → HasRecorded opening events t0 recorder.now (M.disk media.now)
        → KnowsRun (state_left opening events) tally.now
        → HasAnswered recorder.now.vault.config.channels (Rose (sum (M.faults media.now)) (sum (M.faults media.now))) opening events t0 HealthOrder result recorder.now recorder.now (M.disk media.now) (M.disk media.now) W.hears (W.seen watch.old) (W.seen watch.new) }
    ensures watched { IsWatched W.hears (W.seen watch.new) recorder.now (M.disk media.now) }
{
    let gauged = watch.gauge(media);
    recorder.look_watched(media, watch);
    told(recorder, tally, &gauged)
}
