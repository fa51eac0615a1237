// A session on media that were lent to it, with the close of its run.
//
// The close comes after the latch and asks the recorder whether it has failed, so that a control worker's fault
// behind the loop's last turn is told too.
ghost use Rattle.std.specs.Prelude.{◌≡◌, ◌≤◌, ◌<◌, ◌/◌, ◌^◌, ℕ, [], true, false, length, get_or, slice_index_or, None, IfSome, ◌↔◌};
ghost use Rattle.vdr_terms.specs.Rates.{is_configured};
ghost use Rattle.vdr_config.specs.Sizes.{limits_in};
ghost use Rattle.vdr_core.specs.Histories.{Opening};
ghost use Rattle.vdr_vault.specs.Vaults.{AreRings};
ghost use Rattle.vdr_recorder.specs.Recordings.{HasRecorded};
ghost use Rattle.vdr_recorder.specs.Watched.{IsWatched};
ghost use Rattle.vdr_outside.specs.Disk.{Image};
ghost use Rattle.vdr_durability.specs.Commits.{largest_item};
ghost use Rattle.vdr_recorder.specs.Making.{least_datagram};
ghost use Rattle.vdr_run.specs.Charges.{Foretells};
ghost use Rattle.vdr_intake.specs.Items.{most_items};
ghost use Rattle.vdr_session.specs.Answering.{AnswersMark, BeginsMark};
ghost use Rattle.vdr_session.specs.Closed.{DesksRan};
ghost use Rattle.vdr_session.specs.Ended.{HasEnded};
ghost use Rattle.vdr_session.specs.Ran.{LaneIsReady};
ghost use Rattle.vdr_session.specs.Sessions.{DecidesSession, IsUnbegun};

use crate::kept::Lent;
use crate::lent::{Recorded, record_lent};
use crate::making::Memory;
use crate::mark::Mark;
use crate::records::Began;
use crate::refusing::refusal;
use crate::summing::rest_of;
use std::alloc::Global;
use std::sync::Wait;
use std::thread::Threads;
use vdr_capture::{Lane, Outcome};
use vdr_desk::Desk;
use vdr_outside::{Link, Media, Port};
use vdr_recorder::{Recorder, Watch};
use vdr_reply::Gauge;

/// The recorder after a session, and how the session ended, but for its ports.
#[derive(Drop)]
pub(crate) struct Ended {
    pub recorder: Recorder,
    pub outcome: Outcome,
}

/// The session with this recorder, and the close of its run where that was begun, on media that come back. Where the run is refused nothing is
/// called, nor where there is no memory for the latch, which is answered by None.
pub(crate) fn run_lent<
    'a,
    'b,
    M: Media + Send,
    W: Watch<M> + Gauge<M> + Send,
    P: Port + Send,
    L: Link + Send,
    O: Lent + Send + Sync,
    R: Threads + Wait + Sync,
>(
    rt: &R,
    alloc: Global,
    recorder: Recorder,
    media: &'a mut M,
    watch: &'b mut W,
    lanes: &mut [Lane<P>],
    desks: &mut [Desk<L, Mark>],
    turns: u64,
    memory: &mut Memory,
    room: usize,
) -> (&'a mut M, &'b mut W, Option<Ended>)
    requires name { O.name ≡ media.ghost_name }
    requires watch_name { O.watch_name ≡ watch.ghost_name }
    requires heard { W.seen watch.old ≡ O.heard }
    requires watched { IsWatched W.hears (W.seen watch.old) recorder (M.disk media.old) }
    requires began { (opening : Opening) (t0 : ℕ) → O.began opening t0 → HasRecorded opening [] t0 recorder (M.disk media.old) }
    requires before { (O.clock ≡ (M.disk media.old).clock) × ((i : Image) → (M.disk media.old).now i → O.now i) × ((t : ℕ) (i : Image) → (M.disk media.old).since t i → O.since t i) × ((M.disk media.old).reads ≡ O.reads) × ((t : ℕ) (i : Image) → (M.disk media.old).until t i ↔ O.until t i) }
    requires config { (recorder.vault.config.groups ≡ O.rates) × (recorder.vault.config.batch ≡ O.room) × (length O.rates ≡ 16) }
    requires channels { recorder.vault.config.channels ≡ O.channels }
    requires rings { AreRings recorder.vault (M.disk media.old).sizes }
    requires new { (recorder.is_open ≡ false) × (recorder.vault.failed ≡ false) }
    requires sizes { (M.disk media.old).sizes ≡ O.sizes }
    requires faults { M.faults media.old ≡ O.faults }
    requires turns { turns ≤ most_items }
    requires desks { length desks.old < 2 ^ 32 }
    requires sixteen { length lanes.old ≡ 16 }
    requires ready { (g : ℕ) (d : _) → g < 16 → LaneIsReady (λ g. is_configured (limits_in O.rates g)) g (get_or memory.old.queues g None) (get_or memory.old.takers g None) (slice_index_or lanes.old g d) }
    requires room { (largest_item ≤ room) × (room ≤ O.room) × (room / least_datagram ≤ memory.old.batch.items.capacity) }
    requires empty { memory.old.batch.items.items ≡ [] }
    requires foretells { Foretells (limits_in O.rates) [] memory.old.batch.charges }
    ensures same { result.0.ghost_name ≡ media.entry.ghost_name }
    ensures same_watch { result.1.ghost_name ≡ watch.entry.ghost_name }
    ensures ended { IfSome result.2 (λ e. HasEnded P.Port turns (λ g. is_configured (limits_in O.rates g)) memory.old.queues memory.old.takers memory.new.takers lanes.old lanes.new
        (record { clock = O.clock; now = O.now; since = O.since; until = O.until; reads = O.reads; channels = O.channels; hears = W.hears; heard = O.heard }) O.began O.sizes O.faults (λ began marks. DesksRan L.Link (AnswersMark M.tells O.began O.channels) (BeginsMark M.tells O.began O.channels) turns desks.old desks.new began marks) e.outcome e.recorder (M.disk result.0.now) (M.faults result.0.now) (W.seen result.1.now)) }
    ensures unbegun { IfSome result.2 (λ e. IsUnbegun e.outcome → (result.0.now ≡ media.entry.now) × (lanes.new ≡ lanes.old)) }
    ensures decides { IfSome result.2 (λ e. DecidesSession recorder.vault e.outcome) }
    ensures queues { memory.new.queues ≡ memory.old.queues }
    ensures refused { result.2 ≡ None → (result.0.now ≡ media.entry.now) × (lanes.new ≡ lanes.old) × (desks.new ≡ desks.old) × (result.1.now ≡ watch.entry.now) }
{
    if let Some(outcome) = refusal(&recorder) {
        return (media, watch, Some(Ended { recorder, outcome }));
    }
    let (media, watch, recorded) = record_lent::<M, W, P, L, O, R>(
        rt,
        alloc,
        recorder,
        media,
        watch,
        lanes,
        desks,
        turns,
        &memory.queues,
        &mut memory.takers,
        &mut memory.batch,
        room,
    );
    let Some(
        Recorded {
            mut recorder,
            began,
        },
    ) = recorded
    else {
        return (media, watch, None);
    };
    let Began::Begun = began else {
        let outcome = Outcome::MediaFault;
        return (media, watch, Some(Ended { recorder, outcome }));
    };
    let outcome = match recorder.stop_watched(media, watch, &rest_of(lanes, &memory.queues)) {
        Ok(()) => Outcome::Done,
        Err(_) => Outcome::MediaFault,
    };
    (media, watch, Some(Ended { recorder, outcome }))
}
