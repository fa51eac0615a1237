// The memory of a session and its threads, before it begins.
ghost use Rattle.std.specs.Prelude.{◌≡◌, ◌≤◌, ◌<◌, ◌/◌, ℕ, [], None, OnOk, IfOk, length, replicate, get_or, slice_index_or, false};
ghost use Rattle.vdr_recorder.specs.Making.{least_datagram};
ghost use Rattle.vdr_session.specs.Ran.{IsSetUp, LaneIsReady};

use crate::batch::Batch;
use crate::muster::grants_threads;
use crate::plan::Plan;
use std::alloc::Global;
use std::sync::Wait;
use std::thread::Threads;
use vdr_capture::Lane;
use vdr_gap::Tally;
use vdr_intake::{CapturedBuffer, Intake, NoMemory, Taker};
use vdr_recorder::LEAST_DATAGRAM;
use vdr_run::Charges;

// Sets the lane of a group anew, with a queue of its own where the group is configured.
fn set_up_one<P>(
    alloc: Global,
    configured: bool,
    group: u8,
    capacity: u32,
    lane: &mut Lane<P>,
    queue: &mut Option<Intake>,
    taker: &mut Option<Taker>,
) -> Result<(), NoMemory>
    requires group { (group < 16) × (lane.old.group ≡ group) }
    requires capacity { (0 < capacity) × (capacity ≤ 65536) }
    ensures set_up { OnOk result (IsSetUp configured group capacity queue.new taker.new lane.old lane.new) }
    ensures same { (lane.new.port ≡ lane.old.port) × (lane.new.group ≡ lane.old.group) }
{
    lane.feeder = None;
    lane.tally = Tally::new();
    lane.cause = None;
    *queue = None;
    *taker = None;
    if configured {
        let (made, feeder, token) = Intake::new(alloc, group, capacity)?;
        lane.feeder = Some(feeder);
        *queue = Some(made);
        *taker = Some(token);
    }
    Ok(())
}

// Sets all lanes anew, each of a configured group with a queue of its own.
fn set_up<P>(
    alloc: Global,
    configured: &[bool; 16],
    capacity: u32,
    lanes: &mut [Lane<P>],
    queues: &mut [Option<Intake>; 16],
    takers: &mut [Option<Taker>; 16],
) -> Result<(), NoMemory>
    requires sixteen { length lanes.old ≡ 16 }
    requires groups { (g : ℕ) (d : _) → g < 16 → (slice_index_or lanes.old g d).group ≡ g }
    requires capacity { (0 < capacity) × (capacity ≤ 65536) }
    ensures set_up { OnOk result ((g : ℕ) (d : _) → g < 16
        → IsSetUp (get_or configured.now g false) g capacity (get_or queues.new g None) (get_or takers.new g None) (slice_index_or lanes.old g d) (slice_index_or lanes.new g d)) }
    ensures same { (g : ℕ) (d : _) → g < 16 → (slice_index_or lanes.new g d).port ≡ (slice_index_or lanes.old g d).port }
    ensures sixteen { (length queues.new ≡ 16) × (length takers.new ≡ 16) }
{
    for group in 0..16 {
        set_up_one(
            alloc,
            configured[group],
            group as u8,
            capacity,
            &mut lanes[group],
            &mut queues[group],
            &mut takers[group],
        )?;
    }
    Ok(())
}

// None for each group.
pub(crate) fn none<X>() -> [Option<X>; 16]
    ensures { result ≡ replicate 16 None }
{
    [
        None, None, None, None, None, None, None, None, None, None, None, None, None, None, None,
        None,
    ]
}

/// The memory of a session but for its latch: the queue of each configured group, its taker, and the items on their way to the recorder.
#[derive(Drop)]
pub(crate) struct Memory {
    pub queues: [Option<Intake>; 16],
    pub takers: [Option<Taker>; 16],
    pub batch: Batch,
}

impl Memory {
    /// Takes the memory, for batches that are charged by these, sets all lanes anew, and asks the host for the threads of a session with so
    /// many desks: one that refuses them has no room for it, as one without memory.
    pub fn new<P, R: Threads + Wait + Sync>(
        rt: &R,
        alloc: Global,
        plan: &Plan,
        charges: Charges,
        lanes: &mut [Lane<P>],
        desks: usize,
    ) -> Result<Memory, NoMemory>
        requires sixteen { length lanes.old ≡ 16 }
        requires groups { (g : ℕ) (d : _) → g < 16 → (slice_index_or lanes.old g d).group ≡ g }
        requires capacity { (0 < plan.now.capacity) × (plan.now.capacity ≤ 65536) }
        ensures set_up { IfOk result (λ m. (g : ℕ) (d : _) → g < 16
            → IsSetUp (get_or plan.now.configured g false) g plan.now.capacity (get_or m.queues g None) (get_or m.takers g None) (slice_index_or lanes.old g d) (slice_index_or lanes.new g d)) }
        ensures same { (g : ℕ) (d : _) → g < 16 → (slice_index_or lanes.new g d).port ≡ (slice_index_or lanes.old g d).port }
        ensures batch { IfOk result (λ m. (m.batch.items.items ≡ []) × (plan.now.room / least_datagram ≤ m.batch.items.capacity) × (m.batch.charges ≡ charges)) }
        ensures sixteen { IfOk result (λ m. (length m.queues ≡ 16) × (length m.takers ≡ 16)) }
    {
        let mut queues = none();
        let mut takers = none();
        set_up(
            alloc,
            &plan.configured,
            plan.capacity,
            lanes,
            &mut queues,
            &mut takers,
        )?;
        let Ok(items) = CapturedBuffer::with_capacity(alloc, plan.room / LEAST_DATAGRAM) else {
            return Err(NoMemory);
        };
        if !grants_threads(rt, alloc, desks)? {
            return Err(NoMemory);
        }
        Ok(Memory {
            queues,
            takers,
            batch: Batch {
                items,
                charges,
                works: true,
            },
        })
    }
}
