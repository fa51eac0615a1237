// The desks beside the captures and the recorder's loop.
ghost use Rattle.std.specs.Prelude.{◌≡◌, ◌≤◌, ◌<◌, ◌/◌, ◌++◌, ◌^◌, ℕ, List, [], All, None, Some, true, false, slice_index_or, length};
ghost use mathlib.Core.List.{IsPrefix};
ghost use Rattle.vdr_core.specs.Taken.{Captured as CapturedTold};
ghost use Rattle.vdr_latch.specs.Passes.{Passing};
ghost use Rattle.vdr_durability.specs.Commits.{largest_item};
ghost use Rattle.vdr_recorder.specs.Making.{least_datagram};
ghost use Rattle.vdr_run.specs.Charges.{Foretells};
ghost use Rattle.vdr_intake.specs.Items.{most_items};
ghost use Rattle.vdr_capture.specs.Lanes.{CapturesHeld, IsReadyAmong};
ghost use Rattle.vdr_desk.specs.Answers.{IsBegun};
ghost use Rattle.vdr_desk.specs.Desks.{HasServed, Serves};
ghost use Rattle.vdr_session.specs.declared.mark.Mark.{Mark as Marked};
ghost use Rattle.vdr_session.specs.Lanes.{AreMet, ArePopped, StayJoined};
ghost use Rattle.vdr_session.specs.Marks.{has_fault, is_begun, is_leading, taken_in};

use crate::batch::Batch;
use crate::fork::capture_and_record;
use crate::mark::Mark;
use crate::records::Records;
use std::alloc::Global;
use std::sync::Wait;
use std::thread::{Threads, join_mut};
use vdr_capture::Lane;
use vdr_desk::{Answers, Desk, join_desks, serve_all, split_desks};
use vdr_intake::{Intake, Taker};
use vdr_latch::{Latch, LatchPass};
use vdr_outside::{Link, Port};

// Captures the lanes and takes what is queued into the run, as `capture_and_record` does, while the desks are served, each of which holds a
// pass of its own.
fn run_beside<
    T: Records + Answers + Send,
    P: Port + Send,
    L: Link + Send,
    R: Threads + Wait + Sync,
>(
    rt: &R,
    alloc: Global,
    latch: &Latch<T>,
    pass: &mut LatchPass<Mark>,
    lanes: &mut [Lane<P>],
    desks: &mut [Desk<L, Mark>],
    turns: u64,
    queues: &[Option<Intake>; 16],
    takers: &mut [Option<Taker>; 16],
    batch: &mut Batch,
    room: usize,
) -> bool
    requires turns { turns ≤ most_items }
    requires ready { All (IsReadyAmong queues.now) lanes.old }
    requires latch { pass.old.latch ≡ latch.now }
    requires held { (i : ℕ) (d : _) → i < length desks.old → (p : Passing Marked) × ((slice_index_or desks.old i d).pass ≡ Some p) × (p.latch ≡ latch.now) × (p.leads ≡ false) }
    requires leads { (pass.old.leads ≡ true) × (is_begun pass.old.own ≡ true) }
    requires marks { (m : Marked) → T.leading m ≡ is_leading m }
    requires takes { (history : List Marked) (x : T) → T.leaves history x → is_begun history ≡ true → T.takes (taken_in history) x }
    requires met { AreMet T.configured queues.now takers.old }
    requires popped { ArePopped (taken_in pass.old.own) takers.old }
    requires room { (largest_item ≤ room) × (room ≤ T.room) × (room / least_datagram ≤ batch.old.items.capacity) }
    requires empty { batch.old.items.items ≡ [] }
    requires foretells { Foretells T.limits (taken_in pass.old.own) batch.old.charges }
    ensures captured { (i : ℕ) (d : _) → i < length lanes.old → CapturesHeld P.Port turns (slice_index_or lanes.old i d) (slice_index_or lanes.new i d) }
    ensures pass { (pass.new.latch ≡ pass.old.latch) × (pass.new.parts ≡ pass.old.parts) × (pass.new.leads ≡ true) × (is_begun pass.new.own ≡ true) }
    ensures seen { IsPrefix pass.old.seen pass.new.seen }
    ensures met { AreMet T.configured queues.now takers.new }
    ensures popped { (lost : List CapturedTold) × ArePopped (taken_in pass.new.own ++ lost) takers.new × (result ≡ true → lost ≡ []) }
    ensures fails { result ≡ false → has_fault pass.new.seen ≡ true }
    ensures joined { StayJoined takers.old takers.new }
    ensures room { room / least_datagram ≤ batch.new.items.capacity }
    ensures empty { batch.new.items.items ≡ [] }
    ensures foretells { result ≡ true → Foretells T.limits (taken_in pass.new.own) batch.new.charges }
    ensures each { (i : ℕ) (d : _) → i < length desks.old → Serves L.Link (T.answers i) (IsBegun (T.waits i)) turns (slice_index_or desks.old i d) (slice_index_or desks.new i d) }
    ensures as_many { length desks.new ≡ length desks.old }
{
    let (works, _) = join_mut(
        rt,
        &mut || -> bool
            requires turns { turns ≤ most_items }
            requires ready { All (IsReadyAmong queues.now) lanes.now }
            requires latch { pass.now.latch ≡ latch.now }
            requires leads { (pass.now.leads ≡ true) × (is_begun pass.now.own ≡ true) }
            requires marks { (m : Marked) → T.leading m ≡ is_leading m }
            requires takes { (history : List Marked) (x : T) → T.leaves history x → is_begun history ≡ true → T.takes (taken_in history) x }
            requires met { AreMet T.configured queues.now takers.now }
            requires popped { ArePopped (taken_in pass.now.own) takers.now }
            requires room { (largest_item ≤ room) × (room ≤ T.room) × (room / least_datagram ≤ batch.now.items.capacity) }
            requires empty { batch.now.items.items ≡ [] }
            requires foretells { Foretells T.limits (taken_in pass.now.own) batch.now.charges }
            ensures captured { (i : ℕ) (d : _) → i < length lanes.entry.now → CapturesHeld P.Port turns (slice_index_or lanes.entry.now i d) (slice_index_or lanes.exit.now i d) }
            ensures pass { (pass.exit.now.latch ≡ pass.entry.now.latch) × (pass.exit.now.parts ≡ pass.entry.now.parts) × (pass.exit.now.leads ≡ true) × (is_begun pass.exit.now.own ≡ true) }
            ensures seen { IsPrefix pass.entry.now.seen pass.exit.now.seen }
            ensures met { AreMet T.configured queues.entry.now takers.exit.now }
            ensures popped { (lost : List CapturedTold) × ArePopped (taken_in pass.exit.now.own ++ lost) takers.exit.now × (result ≡ true → lost ≡ []) }
            ensures fails { result ≡ false → has_fault pass.exit.now.seen ≡ true }
            ensures joined { StayJoined takers.entry.now takers.exit.now }
            ensures room { room / least_datagram ≤ batch.exit.now.items.capacity }
            ensures empty { batch.exit.now.items.items ≡ [] }
            ensures foretells { result ≡ true → Foretells T.limits (taken_in pass.exit.now.own) batch.exit.now.charges }
        { capture_and_record(rt, latch, pass, lanes, turns, queues, takers, batch, room) },
        &mut ||
            requires held { (i : ℕ) (d : _) → i < length desks.now → (p : Passing Marked) × ((slice_index_or desks.now i d).pass ≡ Some p) × (p.latch ≡ latch.now) × (p.leads ≡ false) }
            ensures each { (i : ℕ) (d : _) → i < length desks.entry.now → Serves L.Link (T.answers i) (IsBegun (T.waits i)) turns (slice_index_or desks.entry.now i d) (slice_index_or desks.exit.now i d) }
            ensures as_many { length desks.exit.now ≡ length desks.entry.now }
        { serve_all(rt, latch, alloc, desks, turns) },
    );
    works
}

/// Captures the lanes and takes what is queued into the run, as `capture_and_record` does, while the desks are served beside it, each with a
/// pass of its own. Says whether the media still work, as far as the recorder's loop has seen.
pub(crate) fn record_and_serve<
    T: Records + Answers + Send,
    P: Port + Send,
    L: Link + Send,
    R: Threads + Wait + Sync,
>(
    rt: &R,
    alloc: Global,
    latch: &Latch<T>,
    pass: &mut LatchPass<Mark>,
    lanes: &mut [Lane<P>],
    desks: &mut [Desk<L, Mark>],
    turns: u64,
    queues: &[Option<Intake>; 16],
    takers: &mut [Option<Taker>; 16],
    batch: &mut Batch,
    room: usize,
) -> bool
    requires turns { turns ≤ most_items }
    requires ready { All (IsReadyAmong queues.now) lanes.old }
    requires latch { pass.old.latch ≡ latch.now }
    requires parts { length desks.old < pass.old.parts }
    requires leads { (pass.old.leads ≡ true) × (is_begun pass.old.own ≡ true) }
    requires marks { (m : Marked) → T.leading m ≡ is_leading m }
    requires takes { (history : List Marked) (x : T) → T.leaves history x → is_begun history ≡ true → T.takes (taken_in history) x }
    requires met { AreMet T.configured queues.now takers.old }
    requires popped { ArePopped (taken_in pass.old.own) takers.old }
    requires room { (largest_item ≤ room) × (room ≤ T.room) × (room / least_datagram ≤ batch.old.items.capacity) }
    requires empty { batch.old.items.items ≡ [] }
    requires foretells { Foretells T.limits (taken_in pass.old.own) batch.old.charges }
    ensures captured { (i : ℕ) (d : _) → i < length lanes.old → CapturesHeld P.Port turns (slice_index_or lanes.old i d) (slice_index_or lanes.new i d) }
    ensures pass { (pass.new.latch ≡ pass.old.latch) × (pass.new.parts ≡ pass.old.parts) × (pass.new.leads ≡ true) × (is_begun pass.new.own ≡ true) }
    ensures seen { IsPrefix pass.old.seen pass.new.seen }
    ensures met { AreMet T.configured queues.now takers.new }
    ensures popped { (lost : List CapturedTold) × ArePopped (taken_in pass.new.own ++ lost) takers.new × (result ≡ true → lost ≡ []) }
    ensures fails { result ≡ false → has_fault pass.new.seen ≡ true }
    ensures joined { StayJoined takers.old takers.new }
    ensures room { room / least_datagram ≤ batch.new.items.capacity }
    ensures empty { batch.new.items.items ≡ [] }
    ensures foretells { result ≡ true → Foretells T.limits (taken_in pass.new.own) batch.new.charges }
    ensures desks { (i : ℕ) (d : _) → i < length desks.old → HasServed L.Link (T.answers i) (IsBegun (T.waits i)) turns 0 pass.new.seen (slice_index_or desks.old i d) (slice_index_or desks.new i d) × ((slice_index_or desks.new i d).pass ≡ None) }
    ensures as_many { length desks.new ≡ length desks.old }
{
    split_desks(latch, pass, desks);
    let works = run_beside(
        rt, alloc, latch, pass, lanes, desks, turns, queues, takers, batch, room,
    );
    join_desks(latch, pass, desks);
    works
}
