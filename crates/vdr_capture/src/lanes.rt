// Captures of several lanes beside each other.
//
// There are as many threads as lanes: with fewer two lanes could share one, and a port that waits for what another
// gives would wait until its takes are used up.
ghost use Rattle.std.specs.Prelude.{◌≤◌, ◌<◌, ℕ, All, length, slice_index_or};
ghost use Rattle.vdr_intake.specs.Items.{most_items};
ghost use Rattle.vdr_capture.specs.Lanes.{IsReadyAmong, CapturesHeld};

use crate::{Lane, capture};
use std::sync::Wait;
use std::thread;
use std::thread::Threads;
use vdr_intake::Intake;
use vdr_outside::Port;

// Captures the lane with the queue of its group, where it holds a feeder.
fn capture_held<P: Port, R: Wait>(
    rt: &R,
    lane: &mut Lane<P>,
    turns: u64,
    queues: &[Option<Intake>; 16],
)
    requires turns { turns ≤ most_items }
    requires ready { IsReadyAmong queues.now lane.old }
    ensures { CapturesHeld P.Port turns lane.old lane.new }
{
    if lane.feeder.is_none() {
        return;
    }
    if let Some(queue) = &queues[usize::from(lane.group)] {
        capture(rt, lane, turns, queue);
    }
}

/// Captures each lane that holds a feeder, all of them beside each other, as `capture` does with the queue of the lane's
/// group. It leaves the other lanes as they are.
///
/// It takes no memory, and it has neither the media nor what guards them. Each lane has a thread of its own, as far as threads
/// can be started: a port may wait for what another one gives.
pub fn capture_all<P: Port + Send, R: Threads + Wait + Sync>(
    rt: &R,
    lanes: &mut [Lane<P>],
    turns: u64,
    queues: &[Option<Intake>; 16],
)
    requires turns { turns ≤ most_items }
    requires ready { All (IsReadyAmong queues.now) lanes.old }
    ensures { (i : ℕ) (d : _) → i < length lanes.old → CapturesHeld P.Port turns (slice_index_or lanes.old i d) (slice_index_or lanes.new i d) }
{
    let threads = lanes.len().max(1);
    thread::for_each_mut(
        rt,
        lanes,
        threads,
        &|_: usize, lane: &mut Lane<P>|
            requires turns { turns ≤ most_items }
            requires ready { IsReadyAmong queues.now lane.old }
            ensures { CapturesHeld P.Port turns lane.old lane.new }
        { capture_held(rt, lane, turns, queues) },
    );
}
