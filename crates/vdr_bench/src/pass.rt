// Datagrams passed from one thread to another through the queue, and counted as they come in order.
ghost use Rattle.std.specs.Prelude.{◌≡◌, ◌≤◌, ◌<◌, ◌+◌, [], ◌∷◌, ◌++◌};
ghost use Rattle.std.specs.Bool.{OnTrue};
ghost use Rattle.vdr_terms.specs.Records.{total};
ghost use Rattle.vdr_intake.specs.Items.{Follows, most_items};

use arrayvec::ArrayVec;
use std::alloc::Global;
use std::sync::Wait;
use std::thread;
use std::thread::Threads;
use vdr_intake::{Captured, Feeder, Intake, Taker};
use vdr_terms::Counts;

/// How many datagrams the queue has room for.
const CAPACITY: u32 = 256;

/// The bytes of each.
const DATAGRAM: &[u8; 100] =
    b"UdPbC\0xxxxxxxxxxxxxxxxxxxxxxxxxxxxxxxxxxxxxxxxxxxxxxxxxxxxxxxxxxxxxxxxxxxxxxxxxxxxxxxxxxxxxxxxxxxxxx";

fn datagram(number: u64) -> Captured
    ensures { (result.group ≡ 3) × (result.number ≡ number) × (total result.missed ≡ 0) }
{
    let mut bytes = ArrayVec::new();
    let _ = bytes.try_extend_from_slice(DATAGRAM);
    Captured {
        group: 3,
        number,
        received: 0,
        utc: 0,
        missed: Counts {
            full: 0,
            rate: 0,
            bad: 0,
            large: 0,
        },
        bytes,
    }
}

// Offers the item until it is taken. False after 2^62 full steps.
fn push<R: Wait>(rt: &R, queue: &Intake, feeder: &mut Feeder, mut item: Captured) -> bool
    requires queue { feeder.old.queue ≡ queue.now }
    requires follows { Follows queue.now.group feeder.old.pushed item }
    requires few { item.number < most_items }
    ensures queue { feeder.new.queue ≡ feeder.old.queue }
    ensures pushed { OnTrue result (feeder.new.pushed ≡ feeder.old.pushed ++ item ∷ []) }
{
    for _ in rt.forever() {
        if feeder.full() >= 1 << 62 {
            return false;
        }
        match queue.offer(rt, feeder, item) {
            Ok(()) => return true,
            Err(back) => item = back,
        }
        thread::yield_now();
    }
    unreachable!()
}

fn feed<R: Wait>(rt: &R, queue: &Intake, mut feeder: Feeder, count: u64) -> Feeder
    requires queue { queue.now.group ≡ 3 }
    requires new { feeder ≡ record { queue = queue.now; pushed = []; full = 0 } }
    requires few { count ≤ most_items }
{
    for number in 0..count {
        if !push(rt, queue, &mut feeder, datagram(number)) {
            return feeder;
        }
    }
    feeder
}

// The number of datagrams that came in order, up to this one.
fn take<R: Wait>(rt: &R, queue: &Intake, mut taker: Taker, count: u64) -> u64
    requires { taker.queue ≡ queue.now }
{
    let mut arrived = 0;
    for _ in rt.forever() {
        if arrived >= count {
            return arrived;
        }
        match queue.next(rt, &mut taker) {
            Some(item) if item.number == arrived => arrived += 1,
            Some(_) => return arrived,
            None => thread::yield_now(),
        }
    }
    unreachable!()
}

/// Passes so many datagrams, at most a thousand million, from one thread to another, and says how many came in order. None
/// where memory is refused.
pub fn pass<R: Threads + Wait + Sync>(rt: &R, alloc: Global, count: u64) -> Option<u64> {
    let count = count.min(1_000_000_000);
    let (queue, feeder, taker) = Intake::new(alloc, 3, CAPACITY).ok()?;
    let lent = &queue;
    let (_, arrived) = thread::join(
        rt,
        move ||
            requires queue { lent.now.group ≡ 3 }
            requires new { feeder ≡ record { queue = lent.now; pushed = []; full = 0 } }
            requires few { count ≤ most_items }
        { feed(rt, lent, feeder, count) },
        move ||
            requires { taker.queue ≡ lent.now }
        { take(rt, lent, taker, count) },
    );
    Some(arrived)
}
