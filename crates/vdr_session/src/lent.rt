// A session on media that were lent to it, from the making of the latch to its close.
ghost use Rattle.std.specs.Prelude.{◌≡◌, ◌≤◌, ◌<◌, ◌/◌, ◌^◌, ℕ, List, [], true, false, length, get_or, slice_index_or, None, IfSome, ◌↔◌};
ghost use Rattle.vdr_terms.specs.Rates.{is_configured};
ghost use Rattle.vdr_config.specs.Sizes.{limits_in};
ghost use Rattle.vdr_core.specs.Histories.{Opening};
ghost use Rattle.vdr_vault.specs.Vaults.{AreRings};
ghost use Rattle.vdr_recorder.specs.Recordings.{HasRecorded};
ghost use Rattle.vdr_recorder.specs.Watched.{IsWatched};
ghost use Rattle.vdr_outside.specs.Disk.{Image};
ghost use Rattle.vdr_durability.specs.Commits.{largest_item};
ghost use Rattle.vdr_recorder.specs.Making.{least_datagram};
ghost use Rattle.vdr_run.specs.Charges.{Foretells};
ghost use Rattle.vdr_intake.specs.Items.{most_items};
ghost use Rattle.vdr_session.specs.declared.mark.Mark.{Mark as Marked};
ghost use Rattle.vdr_session.specs.Answering.{AnswersMark, BeginsMark};
ghost use Rattle.vdr_session.specs.Closed.{DesksRan, HasClosed};
ghost use Rattle.vdr_session.specs.Ran.{LaneIsReady};
ghost use Rattle.vdr_session.specs.Standing.{IsKept, IsNoRefusal, MayStart, StartMeans};

use crate::batch::Batch;
use crate::kept::{Kept, Lent};
use crate::mark::Mark;
use crate::records::Began;
use crate::under_latch::{Closed, under_latch};
use std::alloc::Global;
use std::marker::PhantomData;
use std::sync::Wait;
use std::thread::Threads;
use vdr_capture::Lane;
use vdr_desk::Desk;
use vdr_health::RunTally;
use vdr_intake::{Intake, Taker};
use vdr_outside::{Link, Media, Port};
use vdr_recorder::{Recorder, Watch};
use vdr_reply::Gauge;

/// The recorder after a session, and how its run began.
#[derive(Drop)]
pub(crate) struct Recorded {
    pub recorder: Recorder,
    pub began: Began,
}

/// The session with this recorder, on media that come back. None where there is no memory for the latch: nothing was called then.
pub(crate) fn record_lent<
    'a,
    'b,
    M: Media + Send,
    W: Watch<M> + Gauge<M> + Send,
    P: Port + Send,
    L: Link + Send,
    O: Lent + Send + Sync,
    R: Threads + Wait + Sync,
>(
    rt: &R,
    alloc: Global,
    recorder: Recorder,
    media: &'a mut M,
    watch: &'b mut W,
    lanes: &mut [Lane<P>],
    desks: &mut [Desk<L, Mark>],
    turns: u64,
    queues: &[Option<Intake>; 16],
    takers: &mut [Option<Taker>; 16],
    batch: &mut Batch,
    room: usize,
) -> (&'a mut M, &'b mut W, Option<Recorded>)
    requires name { O.name ≡ media.ghost_name }
    requires watch_name { O.watch_name ≡ watch.ghost_name }
    requires heard { W.seen watch.old ≡ O.heard }
    requires watched { IsWatched W.hears (W.seen watch.old) recorder (M.disk media.old) }
    requires began { (opening : Opening) (t0 : ℕ) → O.began opening t0 → HasRecorded opening [] t0 recorder (M.disk media.old) }
    requires before { (O.clock ≡ (M.disk media.old).clock) × ((i : Image) → (M.disk media.old).now i → O.now i) × ((t : ℕ) (i : Image) → (M.disk media.old).since t i → O.since t i) × ((M.disk media.old).reads ≡ O.reads) × ((t : ℕ) (i : Image) → (M.disk media.old).until t i ↔ O.until t i) }
    requires config { (recorder.vault.config.groups ≡ O.rates) × (recorder.vault.config.batch ≡ O.room) × (length O.rates ≡ 16) }
    requires channels { recorder.vault.config.channels ≡ O.channels }
    requires rings { AreRings recorder.vault (M.disk media.old).sizes }
    requires new { (recorder.is_open ≡ false) × (recorder.vault.failed ≡ false) }
    requires may { MayStart recorder.vault }
    requires sizes { (M.disk media.old).sizes ≡ O.sizes }
    requires faults { M.faults media.old ≡ O.faults }
    requires turns { turns ≤ most_items }
    requires desks { length desks.old < 2 ^ 32 }
    requires sixteen { length lanes.old ≡ 16 }
    requires ready { (g : ℕ) (d : _) → g < 16 → LaneIsReady (λ g. is_configured (limits_in O.rates g)) g (get_or queues.now g None) (get_or takers.old g None) (slice_index_or lanes.old g d) }
    requires room { (largest_item ≤ room) × (room ≤ O.room) × (room / least_datagram ≤ batch.old.items.capacity) }
    requires empty { batch.old.items.items ≡ [] }
    requires foretells { Foretells (limits_in O.rates) [] batch.old.charges }
    ensures same { result.0.ghost_name ≡ media.entry.ghost_name }
    ensures same_watch { result.1.ghost_name ≡ watch.entry.ghost_name }
    ensures closed { IfSome result.2 (λ r. (marks : List Marked)
        × IsKept (record { clock = O.clock; now = O.now; since = O.since; until = O.until; reads = O.reads; channels = O.channels; hears = W.hears; heard = O.heard }) O.began O.rates O.room O.sizes O.faults marks (W.seen result.1.now) r.recorder (M.disk result.0.now) (M.faults result.0.now)
        × HasClosed P.Port turns (λ g. is_configured (limits_in O.rates g)) queues.now takers.old takers.new lanes.old lanes.new r.began marks
        × DesksRan L.Link (AnswersMark M.tells O.began O.channels) (BeginsMark M.tells O.began O.channels) turns desks.old desks.new r.began marks
        × IsNoRefusal r.began × (M.tells → (opening : Opening) (t0 : ℕ) → O.began opening t0 → StartMeans opening r.began)) }
    ensures refused { result.2 ≡ None → (result.0.now ≡ media.entry.now) × (lanes.new ≡ lanes.old) × (desks.new ≡ desks.old) × (takers.new ≡ takers.old) × (result.1.now ≡ watch.entry.now) }
{
    let kept = Kept::<M, W, O> {
        recorder,
        media,
        watch,
        tally: RunTally::new(),
        of: PhantomData,
    };
    match under_latch(
        rt, alloc, kept, lanes, desks, turns, queues, takers, batch, room,
    ) {
        Ok(Closed { value, began }) => {
            let Kept {
                recorder,
                media,
                watch,
                tally: _,
                of: _,
            } = value;
            (media, watch, Some(Recorded { recorder, began }))
        }
        Err(refused) => {
            let Kept {
                recorder: _,
                media,
                watch,
                tally: _,
                of: _,
            } = refused.value;
            (media, watch, None)
        }
    }
}
