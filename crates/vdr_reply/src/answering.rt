// The answer to an order.
//
// Once the media have failed every order is `FAULT 5`, also a play of what is not there, which the program alone
// would refuse first.
ghost use Rattle.std.specs.Prelude.{◌≡◌, ℕ, List, false, sum};
ghost use Rattle.vdr_core.specs.Histories.{Event, Opening};
ghost use Rattle.vdr_core.specs.RunStates.{state_left};
ghost use Rattle.vdr_health.specs.Tallies.{KnowsRun};
ghost use Rattle.vdr_outside.specs.Causes.{Rose};
ghost use Rattle.vdr_media.specs.Formatted.{members};
ghost use Rattle.vdr_vault.specs.Calls.{SameElsewhere};
ghost use Rattle.vdr_vault.specs.Vaults.{AreRings};
ghost use Rattle.vdr_control.specs.Lines.{AsksFor};
ghost use Rattle.vdr_control.specs.Orders.{plain};
ghost use Rattle.vdr_control.specs.Orders.PlainOrder.{Health as HealthOrder, Release as ReleaseOrder, Save as SaveOrder, Status as StatusOrder};
ghost use Rattle.vdr_recorder.specs.Recordings.{HasRecorded};
ghost use Rattle.vdr_recorder.specs.Watched.{IsWatched};
ghost use Rattle.vdr_reply.specs.Answers.{HasAnswered, HasAnsweredSoFar, HasOrderCause, LeavesRest};

use crate::evidencing::answer_evidence;
use crate::exporting::answer_export;
use crate::health::answer_health;
use crate::lines::{FAULT, of_release, of_save, of_state};
use crate::listing::answer_incidents;
use crate::playing::{Wanted, answer_play};
use crate::telling::answer_tell;
use crate::{Gauge, Rest};
use std::alloc::Global;
use vdr_control::Order;
use vdr_desk::Reply;
use vdr_health::RunTally;
use vdr_outside::Media;
use vdr_recorder::{Recorder, Watch};

// How far the recording is.
fn answer_status<M: Media, W: Watch<M>>(recorder: &Recorder, media: &M, watch: &mut W) -> Reply
    requires works { recorder.now.vault.failed ≡ false }
    requires watched { IsWatched W.hears (W.seen watch.old) recorder.now (M.disk media.now) }
    ensures answered { (opening : Opening) (events : List Event) (t0 : ℕ) → HasRecorded opening events t0 recorder.now (M.disk media.now)
        → HasAnswered recorder.now.vault.config.channels (Rose (sum (M.faults media.now)) (sum (M.faults media.now))) opening events t0 StatusOrder result recorder.now recorder.now (M.disk media.now) (M.disk media.now) W.hears (W.seen watch.old) (W.seen watch.new) }
    ensures watched { IsWatched W.hears (W.seen watch.new) recorder.now (M.disk media.now) }
{
    recorder.look_watched(media, watch);
    of_state(&recorder.status())
}

fn answer_save<M: Media, W: Watch<M>>(
    recorder: &mut Recorder,
    media: &mut M,
    watch: &mut W,
    label: &[u8],
) -> Reply
    requires rings { AreRings recorder.old.vault (M.disk media.old).sizes }
    requires works { recorder.old.vault.failed ≡ false }
    requires watched { IsWatched W.hears (W.seen watch.old) recorder.old (M.disk media.old) }
    ensures answered { (opening : Opening) (events : List Event) (t0 : ℕ) → M.tells → HasRecorded opening events t0 recorder.old (M.disk media.old)
        → HasAnswered recorder.old.vault.config.channels (Rose (sum (M.faults media.old)) (sum (M.faults media.new))) opening events t0 (SaveOrder label.now) result recorder.old recorder.new (M.disk media.old) (M.disk media.new) W.hears (W.seen watch.old) (W.seen watch.new) }
    ensures rest { LeavesRest recorder.old recorder.new }
    ensures rings { AreRings recorder.new.vault (M.disk media.new).sizes }
    ensures others { M.tells → SameElsewhere members (M.disk media.old).reads (M.disk media.new).reads }
    ensures sizes { (M.disk media.new).sizes ≡ (M.disk media.old).sizes }
    ensures watched { IsWatched W.hears (W.seen watch.new) recorder.new (M.disk media.new) }
    ensures cause { HasOrderCause recorder.old.vault.failed recorder.new.vault.failed (M.faults media.old) (M.faults media.new) }
{
    of_save(recorder.save_watched(media, watch, label))
}

fn answer_release<M: Media, W: Watch<M>>(
    recorder: &mut Recorder,
    media: &mut M,
    watch: &mut W,
    id: u32,
) -> Reply
    requires rings { AreRings recorder.old.vault (M.disk media.old).sizes }
    requires works { recorder.old.vault.failed ≡ false }
    requires watched { IsWatched W.hears (W.seen watch.old) recorder.old (M.disk media.old) }
    ensures answered { (opening : Opening) (events : List Event) (t0 : ℕ) → M.tells → HasRecorded opening events t0 recorder.old (M.disk media.old)
        → HasAnswered recorder.old.vault.config.channels (Rose (sum (M.faults media.old)) (sum (M.faults media.new))) opening events t0 (ReleaseOrder id) result recorder.old recorder.new (M.disk media.old) (M.disk media.new) W.hears (W.seen watch.old) (W.seen watch.new) }
    ensures rest { LeavesRest recorder.old recorder.new }
    ensures rings { AreRings recorder.new.vault (M.disk media.new).sizes }
    ensures others { M.tells → SameElsewhere members (M.disk media.old).reads (M.disk media.new).reads }
    ensures sizes { (M.disk media.new).sizes ≡ (M.disk media.old).sizes }
    ensures watched { IsWatched W.hears (W.seen watch.new) recorder.new (M.disk media.new) }
    ensures cause { HasOrderCause recorder.old.vault.failed recorder.new.vault.failed (M.faults media.old) (M.faults media.new) }
{
    of_release(recorder.release_watched(media, watch, id))
}

/// Answers an order, or begins to. It is one event of the recorder's history: a save or a release that is granted, and else a look. The reply is a
/// function of the history before that event. The watch is told of it before the reply is made, unless it met a fault. Of a play the first line
/// alone is answered; the rest of it goes on by `go_on`.
///
/// Once the media have failed each order is answered `FAULT 5`, as is the one that met the fault. What is told, listed or given as
/// evidence is read into memory: it is answered `FAULT 5` too where a read fails, and `FAULT 9` where there is no memory for its page, or for a table that it tells.
/// So is a file, which has its bytes in memory beside its page. What is refused needs no memory, but for the parts of an image. A play needs none, and how
/// the recording fares needs none either: it is told by the tally of the run, and by what the watch gauges, of which nothing is promised.
pub fn answer<M: Media, W: Watch<M> + Gauge<M>>(
    alloc: Global,
    recorder: &mut Recorder,
    media: &mut M,
    watch: &mut W,
    tally: &RunTally,
    order: Order<'_>,
) -> (Reply, Option<Rest>)
    requires rings { AreRings recorder.old.vault (M.disk media.old).sizes }
    requires watched { IsWatched W.hears (W.seen watch.old) recorder.old (M.disk media.old) }
    requires asked { (line : List ℕ) × AsksFor line (plain order) }
    ensures answered { (opening : Opening) (events : List Event) (t0 : ℕ) → M.tells → HasRecorded opening events t0 recorder.old (M.disk media.old)
        → (plain order.entry ≡ HealthOrder → recorder.old.vault.failed ≡ false → KnowsRun (state_left opening events) tally.now)
        → HasAnsweredSoFar recorder.old.vault.config.channels (Rose (sum (M.faults media.old)) (sum (M.faults media.new))) opening events t0 (plain order.entry) result.0 result.1 recorder.old recorder.new (M.disk media.old) (M.disk media.new) W.hears (W.seen watch.old) (W.seen watch.new) }
    ensures rest { LeavesRest recorder.old recorder.new }
    ensures rings { AreRings recorder.new.vault (M.disk media.new).sizes }
    ensures others { M.tells → SameElsewhere members (M.disk media.old).reads (M.disk media.new).reads }
    ensures sizes { (M.disk media.new).sizes ≡ (M.disk media.old).sizes }
    ensures watched { IsWatched W.hears (W.seen watch.new) recorder.new (M.disk media.new) }
    ensures cause { HasOrderCause recorder.old.vault.failed recorder.new.vault.failed (M.faults media.old) (M.faults media.new) }
{
    if recorder.failed() {
        return (Reply::of_line(FAULT), None);
    }
    match order {
        Order::Status => (answer_status(recorder, media, watch), None),
        Order::Save(label) => (answer_save(recorder, media, watch, label), None),
        Order::Release(id) => (answer_release(recorder, media, watch, id), None),
        Order::Incidents => (answer_incidents(alloc, recorder, media, watch), None),
        Order::Health => (answer_health(recorder, media, watch, tally), None),
        Order::Evidence(id) => (answer_evidence(alloc, recorder, media, watch, id), None),
        Order::Tell { medium, telling } => {
            (
                answer_tell(alloc, recorder, media, watch, medium, telling),
                None,
            )
        }
        Order::Play {
            medium,
            channel,
            from,
            to,
        } => {
            let wanted = Wanted {
                medium,
                name: channel,
                from,
                to,
            };
            answer_play(recorder, media, watch, wanted)
        }
        Order::Export {
            medium,
            channel,
            from,
            to,
            exporting,
        } => {
            let wanted = Wanted {
                medium,
                name: channel,
                from,
                to,
            };
            (
                answer_export(alloc, recorder, media, watch, wanted, exporting),
                None,
            )
        }
    }
}
