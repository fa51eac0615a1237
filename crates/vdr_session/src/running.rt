// What goes between the making of the latch and its close.
ghost use Rattle.std.specs.Prelude.{◌≡◌, ◌≤◌, ◌<◌, ◌/◌, ◌++◌, ℕ, List, [], All, true, false, get_or, slice_index_or, length, None};
ghost use mathlib.Core.List.{IsPrefix};
ghost use Rattle.vdr_desk.specs.Answers.{IsBegun};
ghost use Rattle.vdr_desk.specs.Desks.{HasServed};
ghost use Rattle.vdr_core.specs.Taken.{Captured as CapturedTold};
ghost use Rattle.vdr_durability.specs.Commits.{largest_item};
ghost use Rattle.vdr_recorder.specs.Making.{least_datagram};
ghost use Rattle.vdr_run.specs.Charges.{Foretells};
ghost use Rattle.vdr_intake.specs.Items.{most_items};
ghost use Rattle.vdr_capture.specs.Lanes.{CapturesHeld, IsReadyAmong};
ghost use Rattle.vdr_session.specs.declared.mark.Mark.{Mark as Marked};
ghost use Rattle.vdr_session.specs.Lanes.{AreMet, AreDrained, ArePopped};
ghost use Rattle.vdr_session.specs.Marks.{has_fault, is_begun, is_leading, taken_in};
ghost use Rattle.vdr_session.specs.Ran.{LaneIsReady, LaneRan};

use crate::attending::record_and_serve;
use crate::batch::Batch;
use crate::done::Done;
use crate::joining::join_feeders;
use crate::mark::Mark;
use crate::recording_loop::record_queued;
use crate::records::Records;
use std::alloc::Global;
use std::sync::Wait;
use std::thread::Threads;
use vdr_capture::Lane;
use vdr_desk::{Answers, Desk};
use vdr_intake::{Intake, Taker};
use vdr_latch::{Latch, LatchPass};
use vdr_outside::{Link, Port};

/// In a run that was begun: captures the lanes beside the recorder's loop and serves the desks, joins the feeders, and takes what is still queued.
pub(crate) fn run_lanes<
    T: Records + Answers + Send,
    P: Port + Send,
    L: Link + Send,
    R: Threads + Wait + Sync,
>(
    rt: &R,
    alloc: Global,
    latch: &Latch<T>,
    pass: &mut LatchPass<Mark>,
    lanes: &mut [Lane<P>],
    desks: &mut [Desk<L, Mark>],
    turns: u64,
    queues: &[Option<Intake>; 16],
    takers: &mut [Option<Taker>; 16],
    batch: &mut Batch,
    room: usize,
)
    requires turns { turns ≤ most_items }
    requires sixteen { length lanes.old ≡ 16 }
    requires ready { (g : ℕ) (d : _) → g < 16 → LaneIsReady T.configured g (get_or queues.now g None) (get_or takers.old g None) (slice_index_or lanes.old g d) }
    requires latch { pass.old.latch ≡ latch.now }
    requires parts { length desks.old < pass.old.parts }
    requires leads { (pass.old.leads ≡ true) × (is_begun pass.old.own ≡ true) × (taken_in pass.old.own ≡ []) }
    requires marks { (m : Marked) → T.leading m ≡ is_leading m }
    requires takes { (history : List Marked) (x : T) → T.leaves history x → is_begun history ≡ true → T.takes (taken_in history) x }
    requires room { (largest_item ≤ room) × (room ≤ T.room) × (room / least_datagram ≤ batch.old.items.capacity) }
    requires empty { batch.old.items.items ≡ [] }
    requires foretells { Foretells T.limits [] batch.old.charges }
    ensures lanes { (g : ℕ) (d : _) → g < 16 → LaneRan P.Port turns g (get_or queues.now g None) (get_or takers.new g None) (slice_index_or lanes.old g d) (slice_index_or lanes.new g d) }
    ensures pass { (pass.new.latch ≡ pass.old.latch) × (pass.new.parts ≡ pass.old.parts) × (pass.new.leads ≡ true) × (is_begun pass.new.own ≡ true) }
    ensures seen { IsPrefix pass.old.seen pass.new.seen }
    ensures desks { (i : ℕ) (d : _) → i < length desks.old → HasServed L.Link (T.answers i) (IsBegun (T.waits i)) turns 0 pass.new.seen (slice_index_or desks.old i d) (slice_index_or desks.new i d) × ((slice_index_or desks.new i d).pass ≡ None) }
    ensures as_many { length desks.new ≡ length desks.old }
    ensures popped { (lost : List CapturedTold) × ArePopped (taken_in pass.new.own ++ lost) takers.new × (has_fault pass.new.seen ≡ false → lost ≡ []) }
    ensures drained { has_fault pass.new.seen ≡ false → AreDrained takers.new }
    ensures sixteen { length takers.new ≡ 16 }
    ensures met { AreMet T.configured queues.now takers.new }
{
    let works = record_and_serve(
        rt, alloc, latch, pass, lanes, desks, turns, queues, takers, batch, room,
    );
    join_feeders(lanes, queues, takers);
    if !works {
        return;
    }
    let done = Done::new();
    done.set();
    record_queued(rt, latch, pass, queues, takers, batch, room, &done);
}
