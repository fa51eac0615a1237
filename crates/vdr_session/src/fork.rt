// The captures and the recorder's loop beside each other.
ghost use Rattle.std.specs.Prelude.{◌≡◌, ◌≤◌, ◌<◌, ◌/◌, ◌++◌, ℕ, List, [], All, true, false, slice_index_or, length};
ghost use mathlib.Core.List.{IsPrefix};
ghost use Rattle.vdr_core.specs.Taken.{Captured as CapturedTold};
ghost use Rattle.vdr_durability.specs.Commits.{largest_item};
ghost use Rattle.vdr_recorder.specs.Making.{least_datagram};
ghost use Rattle.vdr_run.specs.Charges.{Foretells};
ghost use Rattle.vdr_intake.specs.Items.{most_items};
ghost use Rattle.vdr_capture.specs.Lanes.{CapturesHeld, IsReadyAmong};
ghost use Rattle.vdr_session.specs.declared.mark.Mark.{Mark as Marked};
ghost use Rattle.vdr_session.specs.Lanes.{AreMet, ArePopped, StayJoined};
ghost use Rattle.vdr_session.specs.Marks.{has_fault, is_begun, is_leading, taken_in};

use crate::batch::Batch;
use crate::done::Done;
use crate::mark::Mark;
use crate::recording_loop::record_queued;
use crate::records::Records;
use std::sync::Wait;
use std::thread::{Threads, join_mut};
use vdr_capture::{Lane, capture_all};
use vdr_intake::{Intake, Taker};
use vdr_latch::{Latch, LatchPass};
use vdr_outside::Port;

// Captures the lanes, and then says that the captures are done.
fn capture_until_done<P: Port + Send, R: Threads + Wait + Sync>(
    rt: &R,
    lanes: &mut [Lane<P>],
    turns: u64,
    queues: &[Option<Intake>; 16],
    done: &Done,
)
    requires turns { turns ≤ most_items }
    requires ready { All (IsReadyAmong queues.now) lanes.old }
    ensures { (i : ℕ) (d : _) → i < length lanes.old → CapturesHeld P.Port turns (slice_index_or lanes.old i d) (slice_index_or lanes.new i d) }
{
    capture_all(rt, lanes, turns, queues);
    done.set();
}

/// Captures the lanes beside the recorder's loop, which takes what is queued into the run. Says whether the media still work.
pub(crate) fn capture_and_record<T: Records + Send, P: Port + Send, R: Threads + Wait + Sync>(
    rt: &R,
    latch: &Latch<T>,
    pass: &mut LatchPass<Mark>,
    lanes: &mut [Lane<P>],
    turns: u64,
    queues: &[Option<Intake>; 16],
    takers: &mut [Option<Taker>; 16],
    batch: &mut Batch,
    room: usize,
) -> bool
    requires turns { turns ≤ most_items }
    requires ready { All (IsReadyAmong queues.now) lanes.old }
    requires latch { pass.old.latch ≡ latch.now }
    requires leads { (pass.old.leads ≡ true) × (is_begun pass.old.own ≡ true) }
    requires marks { (m : Marked) → T.leading m ≡ is_leading m }
    requires takes { (history : List Marked) (x : T) → T.leaves history x → is_begun history ≡ true → T.takes (taken_in history) x }
    requires met { AreMet T.configured queues.now takers.old }
    requires popped { ArePopped (taken_in pass.old.own) takers.old }
    requires room { (largest_item ≤ room) × (room ≤ T.room) × (room / least_datagram ≤ batch.old.items.capacity) }
    requires empty { batch.old.items.items ≡ [] }
    requires foretells { Foretells T.limits (taken_in pass.old.own) batch.old.charges }
    ensures captured { (i : ℕ) (d : _) → i < length lanes.old → CapturesHeld P.Port turns (slice_index_or lanes.old i d) (slice_index_or lanes.new i d) }
    ensures pass { (pass.new.latch ≡ pass.old.latch) × (pass.new.parts ≡ pass.old.parts) × (pass.new.leads ≡ true) × (is_begun pass.new.own ≡ true) }
    ensures seen { IsPrefix pass.old.seen pass.new.seen }
    ensures met { AreMet T.configured queues.now takers.new }
    ensures popped { (lost : List CapturedTold) × ArePopped (taken_in pass.new.own ++ lost) takers.new × (result ≡ true → lost ≡ []) }
    ensures fails { result ≡ false → has_fault pass.new.seen ≡ true }
    ensures joined { StayJoined takers.old takers.new }
    ensures room { room / least_datagram ≤ batch.new.items.capacity }
    ensures empty { batch.new.items.items ≡ [] }
    ensures foretells { result ≡ true → Foretells T.limits (taken_in pass.new.own) batch.new.charges }
{
    let done = Done::new();
    let flag = &done;
    // The captures are what runs here: where the host refuses the other's thread, that one runs behind them and does not wait in vain.
    let (works, _) = join_mut(
        rt,
        &mut || -> bool
            requires latch { pass.now.latch ≡ latch.now }
            requires leads { (pass.now.leads ≡ true) × (is_begun pass.now.own ≡ true) }
            requires marks { (m : Marked) → T.leading m ≡ is_leading m }
            requires takes { (history : List Marked) (x : T) → T.leaves history x → is_begun history ≡ true → T.takes (taken_in history) x }
            requires met { AreMet T.configured queues.now takers.now }
            requires popped { ArePopped (taken_in pass.now.own) takers.now }
            requires room { (largest_item ≤ room) × (room ≤ T.room) × (room / least_datagram ≤ batch.now.items.capacity) }
            requires empty { batch.now.items.items ≡ [] }
            requires foretells { Foretells T.limits (taken_in pass.now.own) batch.now.charges }
            ensures pass { (pass.exit.now.latch ≡ pass.entry.now.latch) × (pass.exit.now.parts ≡ pass.entry.now.parts) × (pass.exit.now.leads ≡ true) × (is_begun pass.exit.now.own ≡ true) }
            ensures seen { IsPrefix pass.entry.now.seen pass.exit.now.seen }
            ensures met { AreMet T.configured queues.entry.now takers.exit.now }
            ensures popped { (lost : List CapturedTold) × ArePopped (taken_in pass.exit.now.own ++ lost) takers.exit.now × (result ≡ true → lost ≡ []) }
            ensures fails { result ≡ false → has_fault pass.exit.now.seen ≡ true }
            ensures joined { StayJoined takers.entry.now takers.exit.now }
            ensures room { room / least_datagram ≤ batch.exit.now.items.capacity }
            ensures empty { batch.exit.now.items.items ≡ [] }
            ensures foretells { result ≡ true → Foretells T.limits (taken_in pass.exit.now.own) batch.exit.now.charges }
        { record_queued(rt, latch, pass, queues, takers, batch, room, flag) },
        &mut ||
            requires turns { turns ≤ most_items }
            requires ready { All (IsReadyAmong queues.now) lanes.now }
            ensures { (i : ℕ) (d : _) → i < length lanes.entry.now → CapturesHeld P.Port turns (slice_index_or lanes.entry.now i d) (slice_index_or lanes.exit.now i d) }
        { capture_until_done(rt, lanes, turns, queues, flag) },
    );
    works
}
