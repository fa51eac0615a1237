// The bounded queue of a transmission group: offered to, popped, and joined in the end.
//
// The taker keeps the feeder as an option, so that no list or count means anything before a join. An item's number
// is below 10^12, by the queue's rule and not by the item's type: so the numbers at the recorder are small while
// captures still run.
ghost use Rattle.std.specs.Prelude.{◌≡◌, ℕ, ◌+◌, ◌<◌, ◌≤◌, ◌^◌, List, [], ◌∷◌, ◌++◌, length, Some, None, IfOk, IfErr, OnOk, OnErr, IfSome, IfNone};
ghost use Rattle.crossbeam_queue.specs.Passes.{view, IsPassOf, ruled_capacity};
ghost use Rattle.vdr_core.specs.Taken.{Captured as CapturedTold};
ghost use Rattle.vdr_intake.specs.Ends.{FindsFull, HasLimits};
ghost use Rattle.vdr_intake.specs.Items.{Follows, most_items};

use crate::ends::{Feeder, Taker};
use crate::item::Captured;
use crate::rule::{Ends, Joined, Making, Pop, Push, Queue};
use std::alloc::{AllocError, Global};
use std::marker::{Brand, Model};
use std::sync::Wait;

/// The bounded queue of one transmission group. But for `new` its calls take no memory, and they hold nothing but the queue and
/// an end of it, so that none of them ever waits for a commit.
#[derive(Drop)]
pub struct Intake {
    queue: Queue,
    group: u8,
}

impl Model for Intake {
    ghost use Rattle.crossbeam_queue.specs.Passes.{ruled_capacity};
    ghost use Rattle.vdr_intake.specs.Ends.{QueueId, HasLimits};

    ghost Value = { QueueId };

    ghost view = { λ q. record { table = q.queue.table.shared.table_id; group = q.group; capacity = ruled_capacity q.queue } };

    ghost invariant = { λ q. HasLimits q.group (ruled_capacity q.queue) };
}

/// There was no memory for the queue.
#[derive(Clone, Copy, Debug, PartialEq, Eq, Drop)]
pub struct NoMemory;

// The queue's one pass is cut into the two ends.
fn make<L: Making>(
    alloc: Global,
    group: u8,
    capacity: u32,
) -> Result<(Intake, Feeder, Taker), AllocError>
    requires limits { HasLimits group capacity }
    requires made { (L.group ≡ group) × (L.capacity ≡ capacity) }
    ensures intake { IfOk result (λ r. (r.0.group ≡ group) × (r.0.capacity ≡ capacity)) }
    ensures feeder { IfOk result (λ r. r.1 ≡ record { queue = r.0; pushed = []; full = 0 }) }
    ensures taker { IfOk result (λ r. r.2 ≡ record { queue = r.0; popped = []; joined = None }) }
{
    let (queue, mut first) = Queue::ruled(alloc, capacity as usize)?;
    let second = queue.another::<Ends<L>>(&mut first);
    let intake = Intake { queue, group };
    let feeder = Feeder {
        pass: first,
        full: 0,
    };
    let taker = Taker {
        pass: second,
        full: 0,
    };
    Ok((intake, feeder, taker))
}

impl Intake {
    /// The queue of a group, with the token of its one producer and that of its one consumer. It has room for `capacity`
    /// items.
    pub fn new(alloc: Global, group: u8, capacity: u32) -> Result<(Intake, Feeder, Taker), NoMemory>
        requires group { group < 16 }
        requires capacity { (0 < capacity) × (capacity ≤ 65536) }
        ensures intake { IfOk result (λ r. (r.0.group ≡ group) × (r.0.capacity ≡ capacity)) }
        ensures feeder { IfOk result (λ r. r.1 ≡ record { queue = r.0; pushed = []; full = 0 }) }
        ensures taker { IfOk result (λ r. r.2 ≡ record { queue = r.0; popped = []; joined = None }) }
    {
        make::<Brand>(alloc, group, capacity).map_err(|_| NoMemory)
    }

    /// The number of the transmission group.
    pub fn group(&self) -> u8
        ensures number { result ≡ self.now.group }
        ensures sixteen { result < 16 }
    {
        self.group
    }

    /// How many items it has room for.
    pub fn capacity(&self) -> usize
        ensures number { result ≡ self.now.capacity }
        ensures limits { (0 < result) × (result ≤ 65536) }
    {
        self.queue.capacity()
    }

    /// Pushes the item. It is given back only where the queue was full at one moment of the call: then at least as many
    /// items as the capacity were pushed before, and the feeder counts one full step more.
    pub fn offer<R: Wait>(
        &self,
        rt: &R,
        feeder: &mut Feeder,
        item: Captured,
    ) -> Result<(), Captured>
        requires queue { feeder.old.queue ≡ self.now }
        requires follows { Follows self.now.group feeder.old.pushed item }
        requires few { item.number < most_items }
        requires count { feeder.old.full < 2 ^ 63 }
        ensures queue { feeder.new.queue ≡ feeder.old.queue }
        ensures taken { OnOk result ((feeder.new.pushed ≡ feeder.old.pushed ++ item ∷ []) × (feeder.new.full ≡ feeder.old.full)) }
        ensures back { IfErr result (λ back. back ≡ item) }
        ensures full { OnErr result (FindsFull self.now feeder.old feeder.new) }
    {
        match self.queue.push_as::<Push, R>(rt, &mut feeder.pass, item) {
            Ok(()) => Ok(()),
            Err(back) => {
                feeder.full += 1;
                Err(back)
            }
        }
    }

    /// Pops the oldest item. None comes only where the queue was empty at one moment of the call: where the feeder was joined
    /// by then, all that it pushed was popped.
    pub fn next<R: Wait>(&self, rt: &R, taker: &mut Taker) -> Option<Captured>
        requires queue { taker.old.queue ≡ self.now }
        ensures kept { (taker.new.queue ≡ taker.old.queue) × (taker.new.joined ≡ taker.old.joined) }
        ensures taken { IfSome result (λ item. taker.new.popped ≡ taker.old.popped ++ item ∷ []) }
        ensures follows { IfSome result (λ item. Follows self.now.group taker.old.popped item × (item.number < most_items)) }
        ensures order { IfSome result (λ item. IfSome taker.old.joined (λ feeder. (rest : List CapturedTold) × (feeder.pushed ≡ taker.old.popped ++ item ∷ rest))) }
        ensures none { IfNone result (taker.new.popped ≡ taker.old.popped) }
        ensures all { IfNone result (IfSome taker.old.joined (λ feeder. feeder.pushed ≡ taker.old.popped)) }
    {
        self.queue.pop_as::<Pop, R>(rt, &mut taker.pass)
    }

    /// The feeder has ended: the taker keeps what it pushed and its full count. What was popped so far is a front of what was
    /// pushed.
    pub fn join(&self, taker: &mut Taker, feeder: Feeder)
        requires taker { taker.old.queue ≡ self.now }
        requires feeder { feeder.queue ≡ self.now }
        ensures kept { (taker.new.queue ≡ taker.old.queue) × (taker.new.popped ≡ taker.old.popped) }
        ensures joined { taker.new.joined ≡ Some feeder }
        ensures order { (queued : List CapturedTold) × (feeder.pushed ≡ taker.old.popped ++ queued) }
    {
        let Feeder { pass, full } = feeder;
        self.queue.absorb::<Joined>(&mut taker.pass, pass);
        taker.full = full;
        self.queue.learn_as::<Pop>(&mut taker.pass);
    }
}
